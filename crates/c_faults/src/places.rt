// The faults of a place.

ghost use Rattle.std.specs.Prelude.{◌≡◌, Some};
ghost use Rattle.c_seen.specs.declared.seen.Seen.TheVariants as thing;
ghost use Rattle.c_faults.specs.Faults.{rows};
ghost use Rattle.c_faults.specs.Rows.{needs_number, is_target, needs_view, first_if, lacks_number, mark_of_no_array, gives_away, may_write, writes_const, is_given, other_width_at, has_other_width, has_wrong_shape, is_no_view};
ghost use Rattle.c_faults.specs.Told.{first_among};

use crate::shape::{Shape, is_const, is_object, is_of_other_width, shape_of};
use crate::told::{at_if, first_among, told};
use c_seen::{Meaning, Need, SeenPlace};
use sat_base::{At, Fault, FaultKind};

pub(crate) fn needs_number(need: Need) -> bool
    ensures { result ≡ needs_number need }
{
    matches!(need, Need::Number)
}

fn is_target(need: Need) -> bool
    ensures { result ≡ is_target need }
{
    matches!(need, Need::Target)
}

fn needs_view(need: Need) -> bool
    ensures { result ≡ needs_view need }
{
    match need {
        Need::View { .. } => true,
        _ => false,
    }
}

/// The first token of the argument that has to be a view, where something applies to it.
pub(crate) fn first_if(applies: bool, need: Need) -> Option<At>
    ensures { result ≡ first_if applies need }
{
    if !applies {
        return None;
    }
    match need {
        Need::View { first, .. } => Some(first),
        _ => None,
    }
}

fn lacks_number(place: &SeenPlace, shape: Shape) -> bool
    ensures { result ≡ lacks_number place.now shape }
{
    needs_number(place.need) && (place.ampersand || shape.is_whole() || shape.is_view())
        || is_target(place.need) && shape.is_whole()
}

fn mark_of_no_array(shape: Shape) -> Option<At>
    ensures { result ≡ mark_of_no_array shape }
{
    match shape {
        Shape::NoArray(mark) => Some(mark),
        _ => None,
    }
}

/// Whether it is a way to write, where it is given to a view.
fn gives_away(shape: Shape, ampersand: bool) -> bool
    ensures { result ≡ gives_away shape ampersand }
{
    match shape {
        Shape::Number => ampersand,
        Shape::Array => true,
        Shape::Table => true,
        Shape::Row => true,
        Shape::View => true,
        _ => false,
    }
}

fn may_write(need: Need) -> bool
    ensures { result ≡ may_write need }
{
    match need {
        Need::View { view, .. } => !view.is_const,
        _ => false,
    }
}

fn writes_const(place: &SeenPlace, meaning: Meaning, shape: Shape) -> bool
    ensures { result ≡ writes_const place.now meaning shape }
{
    is_const(meaning)
        && (is_target(place.need) && !shape.is_view()
            || may_write(place.need) && gives_away(shape, place.ampersand))
}

/// Whether it is a view, where it is given to one.
fn is_given(shape: Shape, ampersand: bool) -> bool
    ensures { result ≡ is_given shape ampersand }
{
    match shape {
        Shape::Number => ampersand,
        Shape::Array => !ampersand,
        Shape::Row => !ampersand,
        Shape::View => !ampersand,
        _ => false,
    }
}

fn other_width_at(meaning: Meaning, need: Need) -> Option<At>
    ensures { result ≡ other_width_at meaning need }
{
    match need {
        Need::View { view, first } => at_if(is_of_other_width(meaning, view.width), first),
        _ => None,
    }
}

fn has_other_width(place: &SeenPlace, meaning: Meaning, shape: Shape) -> Option<At>
    ensures { result ≡ has_other_width place.now meaning shape }
{
    if is_given(shape, place.ampersand) {
        other_width_at(meaning, place.need)
    } else {
        None
    }
}

fn has_wrong_shape(place: &SeenPlace, shape: Shape) -> bool
    ensures { result ≡ has_wrong_shape place.now shape }
{
    match shape {
        Shape::Array => place.ampersand,
        Shape::Table => place.ampersand || needs_view(place.need),
        Shape::Row => place.ampersand,
        Shape::View => place.ampersand,
        Shape::Misfit => true,
        _ => false,
    }
}

/// Whether it can be no view: a number, a function, or `&` before a function.
fn is_no_view(place: &SeenPlace, meaning: Meaning, shape: Shape) -> bool
    ensures { result ≡ is_no_view place.now meaning shape }
{
    if place.ampersand {
        !is_object(meaning)
    } else {
        shape.is_number() || shape.is_function()
    }
}

fn fault_of_known(place: &SeenPlace, meaning: Meaning) -> Option<Fault>
    requires { place.now.meaning ≡ Some meaning }
    ensures { result ≡ first_among (rows (thing.Place place.now)) }
{
    let shape = shape_of(meaning, place.marks);
    let written = is_target(place.need) && shape.is_view();
    first_among(&[
        told(
            FaultKind::NumberNeeded,
            at_if(lacks_number(place, shape), place.at),
        ),
        told(FaultKind::NotAnArray, mark_of_no_array(shape)),
        told(
            FaultKind::ConstWritten,
            at_if(writes_const(place, meaning, shape), place.at),
        ),
        told(
            FaultKind::ElementWidth,
            has_other_width(place, meaning, shape),
        ),
        told(
            FaultKind::WrongShape,
            at_if(has_wrong_shape(place, shape), place.at),
        ),
        told(
            FaultKind::ViewNeeded,
            first_if(is_no_view(place, meaning, shape), place.need),
        ),
        told(FaultKind::PointerUse, at_if(written, place.at)),
    ])
}

/// The fault that is told of a place.
pub(crate) fn fault_of_place(place: &SeenPlace) -> Option<Fault>
    ensures { result ≡ first_among (rows (thing.Place place.now)) }
{
    match place.meaning {
        Some(meaning) => fault_of_known(place, meaning),
        None => told(FaultKind::UnknownName, Some(place.at)),
    }
}
