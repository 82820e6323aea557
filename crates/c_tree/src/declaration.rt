// Declarations of objects (C90, 6.5).

use crate::call::Arg;
use crate::expression::Expr;
use sat_base::{At, Named, Width};
use sqlite_items::Items;

/// One declaration of objects: qualifiers, a type, and the declarators between the commas, up to its `;`.
#[derive(Drop)]
pub struct Objects {
    /// Its first token, which is a qualifier or the type.
    pub at: At,
    /// The declared objects, in order. There is at least one in what the grammar gives.
    pub decls: Items<Decl>,
}

/// A declared object: a scalar, an array of one or two dimensions, or a view, `* name`.
#[derive(Drop)]
pub struct Decl {
    /// The first token of its declarator, which is the name, or the `*` before it.
    pub at: At,
    pub name: Named,
    /// The width of the object, or of its elements.
    pub width: Width,
    /// Whether it is a view: a `*` stands before its name.
    pub pointer: bool,
    /// The first pair of square brackets.
    pub rows: Option<Dim>,
    /// The second pair of square brackets.
    pub cols: Option<Dim>,
    pub init: Init,
    /// Whether the declaration says `static`.
    pub is_static: bool,
    /// Whether the declaration says `const`.
    pub is_const: bool,
}

/// A pair of square brackets in a declarator.
#[derive(Drop)]
pub struct Dim {
    /// The `[`.
    pub at: At,
    /// The length, where one is written.
    pub length: Option<Expr>,
}

/// What a declared object starts with (C90, 6.5.7).
#[derive(Drop)]
pub enum Init {
    /// No initialiser.
    Nothing,
    /// `= arg`: one value.
    One(Arg),
    /// `= { .. }`, a list of values.
    Flat(Items<Expr>),
    /// `= { { .. }, .. }`, a list of rows.
    Rows(Items<Row>),
}

/// A row of an initialiser: `{ .. }` in its braces.
#[derive(Drop)]
pub struct Row {
    /// Its values, in order.
    pub values: Items<Expr>,
}
