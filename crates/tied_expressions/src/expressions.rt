// Expressions whose names are tied.

ghost use Rattle.std.specs.Prelude.{◌≡◌, ◌++◌, IfOk, OnOk};
ghost use Rattle.tied_names.specs.Ties.{here_of, object_of};
ghost use Rattle.tied_expressions.specs.Sites.{with_conversion};
ghost use Rattle.tied_expressions.specs.Expressions.{tied_expression, tied_kind, viewed_kind, tied_place, tied_call, tied_argument, arguments_from};

use crate::sites::{binary_kind, expose_if, site_if, unary_kind, with_conversion};
use c_tree::{Arg, Call, Expr, ExprKind, Place};
use c_typed::{TypedArg, TypedCall, TypedExpr, TypedExprKind, TypedPlace};
use operator_meaning::SiteKind;
use sat_base::{At, Memory, Named, Width};
use sqlite_items::{Boxed, Items};
use tied_names::{Asked, Note, Tie, TiedObject, Ties, call_kind, callee_of, index_kind};

fn object_named(ties: &Ties<'_, '_>, name: &Named) -> TiedObject
    ensures { result ≡ object_of (here_of ties.now) name.now.name }
{
    TiedObject::of(ties.find(name.name.as_bytes()))
}

/// An expression whose names are tied.
///
/// # Errors
/// For want of memory alone.
#[cycle(expression)]
pub fn expression(ties: &Ties<'_, '_>, e: &Expr, notes: &mut Vec<Note>) -> Result<TypedExpr, Memory>
    ensures value { IfOk result (λ tied. tied ≡ (tied_expression e.now (here_of ties.now)).value) }
    ensures notes { OnOk result (notes.new.items ≡ notes.old.items ++ (tied_expression e.now (here_of ties.now)).notes) }
{
    let kind = kind(ties, &e.kind, notes)?;
    Ok(TypedExpr {
        at: e.at,
        brackets: e.brackets,
        kind,
    })
}

#[cycle(expression)]
fn boxed(ties: &Ties<'_, '_>, e: &Expr, notes: &mut Vec<Note>) -> Result<Boxed<TypedExpr>, Memory>
    ensures value { IfOk result (λ tied. tied ≡ (tied_expression e.now (here_of ties.now)).value) }
    ensures notes { OnOk result (notes.new.items ≡ notes.old.items ++ (tied_expression e.now (here_of ties.now)).notes) }
{
    let tied = expression(ties, e, notes)?;
    Ok(Boxed::new(ties.alloc, tied)?)
}

#[cycle(expression)]
fn kind(
    ties: &Ties<'_, '_>,
    kind: &ExprKind,
    notes: &mut Vec<Note>,
) -> Result<TypedExprKind, Memory>
    ensures value { IfOk result (λ tied. tied ≡ (tied_kind kind.now (here_of ties.now)).value) }
    ensures notes { OnOk result (notes.new.items ≡ notes.old.items ++ (tied_kind kind.now (here_of ties.now)).notes) }
{
    match kind {
        ExprKind::Int(value) => Ok(TypedExprKind::Int(*value)),
        ExprKind::Read(read) => {
            let read = place(ties, read.get(), false, notes)?;
            Ok(TypedExprKind::Read(Boxed::new(ties.alloc, read)?))
        },
        ExprKind::ReadOverflow { word_at } => Ok(TypedExprKind::ReadOverflow { word_at: *word_at }),
        ExprKind::Unary {
            mark,
            mark_at,
            part,
        } => {
            let site = site_if(ties, unary_kind(*mark), *mark_at, notes)?;
            let part = boxed(ties, part.get(), notes)?;
            Ok(TypedExprKind::Unary {
                mark: *mark,
                mark_at: *mark_at,
                site,
                part,
            })
        },
        ExprKind::Binary {
            mark,
            mark_at,
            left,
            right,
        } => {
            let left = boxed(ties, left.get(), notes)?;
            let site = site_if(ties, binary_kind(*mark), *mark_at, notes)?;
            let right = boxed(ties, right.get(), notes)?;
            Ok(TypedExprKind::Binary {
                mark: *mark,
                mark_at: *mark_at,
                site,
                left,
                right,
            })
        },
        ExprKind::Cast { width, part } => {
            let part = boxed(ties, part.get(), notes)?;
            Ok(TypedExprKind::Cast {
                width: *width,
                part,
            })
        },
        ExprKind::Choose { cond, yes, no } => {
            let cond = boxed(ties, cond.get(), notes)?;
            let yes = boxed(ties, yes.get(), notes)?;
            let no = boxed(ties, no.get(), notes)?;
            Ok(TypedExprKind::Choose { cond, yes, no })
        },
        ExprKind::Call(called) => Ok(TypedExprKind::Call(call(ties, called, notes)?)),
    }
}

/// A place whose name is tied, with an `&` before it or without.
///
/// # Errors
/// For want of memory alone.
#[cycle(expression)]
pub fn place(
    ties: &Ties<'_, '_>,
    place: &Place,
    ampersand: bool,
    notes: &mut Vec<Note>,
) -> Result<TypedPlace, Memory>
    ensures value { IfOk result (λ tied. tied ≡ (tied_place place.now (here_of ties.now) ampersand).value) }
    ensures notes { OnOk result (notes.new.items ≡ notes.old.items ++ (tied_place place.now (here_of ties.now) ampersand).notes) }
{
    match place {
        Place::Plain { name } => {
            let object = object_named(ties, name);
            expose_if(ampersand, object, notes)?;
            Ok(TypedPlace::Plain {
                at: name.at,
                object: object.number,
            })
        },
        Place::Index {
            name,
            mark_at,
            index,
        } => {
            let object = object_named(ties, name);
            let kind = index_kind(object, object.rows, ampersand)?;
            let site = site_if(ties, Some(kind), *mark_at, notes)?;
            let index = boxed(ties, index.get(), notes)?;
            Ok(TypedPlace::Index {
                at: name.at,
                object: object.number,
                mark_at: *mark_at,
                site,
                index,
            })
        },
        Place::Index2 {
            name,
            first_at,
            first,
            second_at,
            second,
        } => {
            let object = object_named(ties, name);
            let row = index_kind(object, object.rows, false)?;
            let column = index_kind(object, object.columns, ampersand)?;
            let first_site = site_if(ties, Some(row), *first_at, notes)?;
            let first = boxed(ties, first.get(), notes)?;
            let second_site = site_if(ties, Some(column), *second_at, notes)?;
            let second = boxed(ties, second.get(), notes)?;
            Ok(TypedPlace::Index2 {
                at: name.at,
                object: object.number,
                first_at: *first_at,
                first_site,
                first,
                second_at: *second_at,
                second_site,
                second,
            })
        },
        Place::Deref { star_at, name } => {
            let site = site_if(ties, Some(SiteKind::ViewBound), *star_at, notes)?;
            Ok(TypedPlace::Deref {
                star_at: *star_at,
                site,
                at: name.at,
                object: object_named(ties, name).number,
            })
        },
    }
}

/// A call whose name is tied, with its arguments.
///
/// # Errors
/// For want of memory alone.
#[cycle(expression)]
pub fn call(ties: &Ties<'_, '_>, call: &Call, notes: &mut Vec<Note>) -> Result<TypedCall, Memory>
    ensures value { IfOk result (λ tied. tied ≡ (tied_call call.now (here_of ties.now)).value) }
    ensures notes { OnOk result (notes.new.items ≡ notes.old.items ++ (tied_call call.now (here_of ties.now)).notes) }
{
    let tie = ties.find(call.name.name.as_bytes());
    let callee = callee_of(tie);
    let site = site_if(ties, call_kind(callee), call.name.at, notes)?;
    let args = arguments(ties, tie, call.args.as_slice(), notes)?;
    Ok(TypedCall {
        at: call.name.at,
        callee,
        site,
        args,
    })
}

#[cycle(expression)]
fn arguments(
    ties: &Ties<'_, '_>,
    tie: Option<Tie>,
    args: &[Arg],
    notes: &mut Vec<Note>,
) -> Result<Items<TypedArg>, Memory>
    ensures value { IfOk result (λ tied. tied ≡ (arguments_from args.now (here_of ties.now) tie 0).value) }
    ensures notes { OnOk result (notes.new.items ≡ notes.old.items ++ (arguments_from args.now (here_of ties.now) tie 0).notes) }
{
    let mut tied = Items::new(ties.alloc);
    for place in 0..args.len() {
        tied.push(argument(ties, &args[place], ties.asked(tie, place), notes)?)?;
    }
    Ok(tied)
}

/// An argument, or the one value that an object starts with, by what it is given to: a number is converted to the
/// width that is asked of it.
///
/// # Errors
/// For want of memory alone.
#[cycle(expression)]
pub fn argument(
    ties: &Ties<'_, '_>,
    arg: &Arg,
    asked: Asked,
    notes: &mut Vec<Note>,
) -> Result<TypedArg, Memory>
    ensures value { IfOk result (λ tied. tied ≡ (tied_argument arg.now (here_of ties.now) asked).value) }
    ensures notes { OnOk result (notes.new.items ≡ notes.old.items ++ (tied_argument arg.now (here_of ties.now) asked).notes) }
{
    match arg {
        Arg::Address { at, place: given } => Ok(TypedArg::Address {
            at: *at,
            place: place(ties, given, true, notes)?,
        }),
        Arg::Value(value) => match asked {
            Asked::Number(width) => number(ties, value, width, notes),
            Asked::View => view(ties, value.at, &value.kind, notes),
        },
    }
}

/// A number that is given to a width.
#[cycle(expression)]
fn number(
    ties: &Ties<'_, '_>,
    e: &Expr,
    width: Width,
    notes: &mut Vec<Note>,
) -> Result<TypedArg, Memory>
    ensures value { IfOk result (λ tied. tied ≡ TypedArg.Value (with_conversion width (tied_expression e.now (here_of ties.now)).value)) }
    ensures notes { OnOk result (notes.new.items ≡ notes.old.items ++ (tied_expression e.now (here_of ties.now)).notes) }
{
    let tied = expression(ties, e, notes)?;
    Ok(TypedArg::Value(with_conversion(ties.alloc, width, tied)?))
}

/// A view that is given: the address of a place that is named without `&`, whose first token is this.
#[cycle(expression)]
fn view(
    ties: &Ties<'_, '_>,
    at: At,
    kind: &ExprKind,
    notes: &mut Vec<Note>,
) -> Result<TypedArg, Memory>
    ensures value { IfOk result (λ tied. tied ≡ (viewed_kind kind.now at (here_of ties.now)).value) }
    ensures notes { OnOk result (notes.new.items ≡ notes.old.items ++ (viewed_kind kind.now at (here_of ties.now)).notes) }
{
    match kind {
        ExprKind::Read(given) => Ok(TypedArg::Address {
            at,
            place: place(ties, given.get(), false, notes)?,
        }),
        ExprKind::Int(_) => Ok(no_view(at)),
        ExprKind::ReadOverflow { .. } => Ok(no_view(at)),
        ExprKind::Unary { .. } => Ok(no_view(at)),
        ExprKind::Binary { .. } => Ok(no_view(at)),
        ExprKind::Cast { .. } => Ok(no_view(at)),
        ExprKind::Choose { .. } => Ok(no_view(at)),
        ExprKind::Call(_) => Ok(no_view(at)),
    }
}

/// What stands where a view is needed and none is given, as no source without a fault has it.
fn no_view(at: At) -> TypedArg
    ensures { result ≡ TypedArg.Address at (TypedPlace.Plain at 0) }
{
    TypedArg::Address {
        at,
        place: TypedPlace::Plain { at, object: 0 },
    }
}
