// What places are, by what their names stand for and by their marks.

ghost use Rattle.std.specs.Prelude.{◌≡◌};
ghost use Rattle.c_faults.specs.Shapes.{whole, marked, shape_of_object, shape_of_function, shape_of, is_const, same_width, is_of_other_width, is_object, is_number, is_view, is_whole, is_function};

use c_seen::{Kind, Marks, Meaning};
use sat_base::{At, Width};

/// What a place is.
#[derive(Clone, Copy)]
pub enum Shape {
    Number,
    /// A whole array of one dimension.
    Array,
    /// A whole array of two dimensions.
    Table,
    /// A row of an array of two dimensions.
    Row,
    View,
    Function,
    /// A mark where the name stands for no array and no view, at the mark.
    NoArray(At),
    /// An array or a view with marks that do not fit its dimensions.
    Misfit,
}

impl Shape {
    pub(crate) fn is_number(self) -> bool
        ensures { result ≡ is_number self }
    {
        matches!(self, Shape::Number)
    }

    pub(crate) fn is_view(self) -> bool
        ensures { result ≡ is_view self }
    {
        matches!(self, Shape::View)
    }

    pub(crate) fn is_function(self) -> bool
        ensures { result ≡ is_function self }
    {
        matches!(self, Shape::Function)
    }

    /// Whether it is an array, a row of one or a function.
    pub(crate) fn is_whole(self) -> bool
        ensures { result ≡ is_whole self }
    {
        match self {
            Shape::Array => true,
            Shape::Table => true,
            Shape::Row => true,
            Shape::Function => true,
            _ => false,
        }
    }
}

fn whole(kind: Kind) -> Shape
    ensures { result ≡ whole kind }
{
    match kind {
        Kind::Scalar => Shape::Number,
        Kind::Array => Shape::Array,
        Kind::Table => Shape::Table,
        Kind::View => Shape::View,
    }
}

/// With a mark, where an array of one dimension is then the first of these, and one of two the second.
fn marked(kind: Kind, mark: At, one: Shape, two: Shape) -> Shape
    ensures { result ≡ marked kind mark one two }
{
    match kind {
        Kind::Scalar => Shape::NoArray(mark),
        Kind::Array => one,
        Kind::Table => two,
        Kind::View => one,
    }
}

fn shape_of_object(kind: Kind, marks: Marks) -> Shape
    ensures { result ≡ shape_of_object kind marks }
{
    match marks {
        Marks::None => whole(kind),
        Marks::Once(mark) => marked(kind, mark, Shape::Number, Shape::Row),
        Marks::Twice(mark) => marked(kind, mark, Shape::Misfit, Shape::Number),
        Marks::Star(mark) => marked(kind, mark, Shape::Number, Shape::Misfit),
    }
}

fn shape_of_function(marks: Marks) -> Shape
    ensures { result ≡ shape_of_function marks }
{
    match marks {
        Marks::None => Shape::Function,
        Marks::Once(mark) => Shape::NoArray(mark),
        Marks::Twice(mark) => Shape::NoArray(mark),
        Marks::Star(mark) => Shape::NoArray(mark),
    }
}

/// What a place is whose name stands for this.
pub(crate) fn shape_of(meaning: Meaning, marks: Marks) -> Shape
    ensures { result ≡ shape_of meaning marks }
{
    match meaning {
        Meaning::Object { kind, .. } => shape_of_object(kind, marks),
        Meaning::Function { .. } => shape_of_function(marks),
        Meaning::Predefined(_) => shape_of_function(marks),
    }
}

/// Whether what the name stands for is const, or has const elements.
pub(crate) fn is_const(meaning: Meaning) -> bool
    ensures { result ≡ is_const meaning }
{
    match meaning {
        Meaning::Object { is_const, .. } => is_const,
        Meaning::Function { .. } => false,
        Meaning::Predefined(_) => false,
    }
}

fn same_width(one: Width, other: Width) -> bool
    ensures { result ≡ same_width one other }
{
    match one {
        Width::W16 => matches!(other, Width::W16),
        Width::W32 => matches!(other, Width::W32),
    }
}

/// Whether what the name stands for has elements of another width.
pub(crate) fn is_of_other_width(meaning: Meaning, other: Width) -> bool
    ensures { result ≡ is_of_other_width meaning other }
{
    match meaning {
        Meaning::Object { width, .. } => !same_width(width, other),
        Meaning::Function { .. } => false,
        Meaning::Predefined(_) => false,
    }
}

pub(crate) fn is_object(meaning: Meaning) -> bool
    ensures { result ≡ is_object meaning }
{
    match meaning {
        Meaning::Object { .. } => true,
        Meaning::Function { .. } => false,
        Meaning::Predefined(_) => false,
    }
}
