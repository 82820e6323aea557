// What is seen in expressions.
#![tactic(auto, using(crate::proofs::Expressions_seen::looks))]

ghost use Rattle.std.specs.Prelude.{◌≡◌, ◌++◌, OnOk, drop};
ghost use Rattle.c_seen.specs.Expressions.{no_view, is_relation, integer_of_kind, opposite, constant_of_kind, constants_in, placed, seen_in_expression, seen_in_kind, seen_in_place, seen_in_call, arguments_from, seen_in_argument};
ghost use Rattle.c_seen.specs.Meanings.{names_of};

use crate::scope::{Scope, need_of};
use crate::seen::{Marks, Meaning, Need, Seen, SeenCall, SeenPlace, Wanted};
use c_tree::{Arg, BinaryMark, Call, Expr, ExprKind, Place, UnaryMark};
use sat_base::{At, Memory, Named};

#[cycle(expression)]
pub(crate) fn expression(
    scope: &Scope<'_, '_>,
    e: &Expr,
    need: Need,
    seen: &mut Vec<Seen>,
) -> Result<(), Memory>
    ensures { OnOk result (seen.new.items ≡ seen.old.items ++ seen_in_expression e.now (names_of scope.now) need) }
{
    kind(scope, &e.kind, need, seen)
}

#[cycle(expression)]
fn kind(
    scope: &Scope<'_, '_>,
    kind: &ExprKind,
    need: Need,
    seen: &mut Vec<Seen>,
) -> Result<(), Memory>
    ensures { OnOk result (seen.new.items ≡ seen.old.items ++ seen_in_kind kind.now (names_of scope.now) need) }
{
    match kind {
        ExprKind::Int(_) => no_view(need, seen),
        ExprKind::Read(read) => place(scope, read.get(), false, need, seen),
        ExprKind::ReadOverflow { .. } => no_view(need, seen),
        ExprKind::Unary { part, .. } => {
            no_view(need, seen)?;
            expression(scope, part.get(), Need::Number, seen)
        },
        ExprKind::Binary {
            mark,
            left,
            right,
            ..
        } => {
            no_view(need, seen)?;
            expression(scope, left.get(), Need::Number, seen)?;
            constants(*mark, left.get(), right.get(), seen)?;
            expression(scope, right.get(), Need::Number, seen)
        },
        ExprKind::Cast { part, .. } => {
            no_view(need, seen)?;
            expression(scope, part.get(), Need::Number, seen)
        },
        ExprKind::Choose { cond, yes, no } => {
            no_view(need, seen)?;
            expression(scope, cond.get(), Need::Number, seen)?;
            expression(scope, yes.get(), Need::Number, seen)?;
            expression(scope, no.get(), Need::Number, seen)
        },
        ExprKind::Call(called) => call(scope, called, need, seen),
    }
}

fn no_view(need: Need, seen: &mut Vec<Seen>) -> Result<(), Memory>
    ensures { OnOk result (seen.new.items ≡ seen.old.items ++ no_view need) }
{
    match need {
        Need::View { first, .. } => Ok(seen.push(Seen::NoView { at: first })?),
        _ => Ok(()),
    }
}

fn is_relation(mark: BinaryMark) -> bool
    ensures { result ≡ is_relation mark }
{
    matches!(
        mark,
        BinaryMark::Eq
            | BinaryMark::Ne
            | BinaryMark::Lt
            | BinaryMark::Le
            | BinaryMark::Gt
            | BinaryMark::Ge
    )
}

/// The integer that it is, after none or more `+`.
fn integer(kind: &ExprKind) -> Option<i32>
    ensures { result ≡ integer_of_kind kind.now }
{
    match kind {
        ExprKind::Int(value) => Some(*value),
        ExprKind::Unary { mark, part, .. } => match mark {
            UnaryMark::Plus => integer(&part.get().kind),
            UnaryMark::Minus => None,
            UnaryMark::Not => None,
            UnaryMark::Invert => None,
        },
        ExprKind::Read(_) => None,
        ExprKind::ReadOverflow { .. } => None,
        ExprKind::Binary { .. } => None,
        ExprKind::Cast { .. } => None,
        ExprKind::Choose { .. } => None,
        ExprKind::Call(_) => None,
    }
}

fn opposite(integer: Option<i32>, at: At, seen: &mut Vec<Seen>) -> Result<(), Memory>
    ensures { OnOk result (seen.new.items ≡ seen.old.items ++ opposite integer at) }
{
    match integer {
        Some(value) => match value.checked_neg() {
            Some(value) => Ok(seen.push(Seen::Constant { at, value })?),
            None => Ok(()),
        },
        None => Ok(()),
    }
}

/// The relational constant that it is, where its first token is this.
fn constant(kind: &ExprKind, at: At, seen: &mut Vec<Seen>) -> Result<(), Memory>
    ensures { OnOk result (seen.new.items ≡ seen.old.items ++ constant_of_kind kind.now at) }
{
    match kind {
        ExprKind::Int(value) => Ok(seen.push(Seen::Constant { at, value: *value })?),
        ExprKind::Unary { mark, part, .. } => match mark {
            UnaryMark::Plus => constant(&part.get().kind, part.get().at, seen),
            UnaryMark::Minus => opposite(integer(&part.get().kind), at, seen),
            UnaryMark::Not => Ok(()),
            UnaryMark::Invert => Ok(()),
        },
        ExprKind::Read(_) => Ok(()),
        ExprKind::ReadOverflow { .. } => Ok(()),
        ExprKind::Binary { .. } => Ok(()),
        ExprKind::Cast { .. } => Ok(()),
        ExprKind::Choose { .. } => Ok(()),
        ExprKind::Call(_) => Ok(()),
    }
}

/// The relational constants among the operands.
fn constants(
    mark: BinaryMark,
    left: &Expr,
    right: &Expr,
    seen: &mut Vec<Seen>,
) -> Result<(), Memory>
    ensures { OnOk result (seen.new.items ≡ seen.old.items ++ constants_in mark (constant_of_kind left.now.kind left.now.at) (constant_of_kind right.now.kind right.now.at)) }
{
    if is_relation(mark) {
        constant(&left.kind, left.at, seen)?;
        constant(&right.kind, right.at, seen)?;
    }
    Ok(())
}

fn placed(scope: &Scope<'_, '_>, name: &Named, marks: Marks, ampersand: bool, need: Need) -> Seen
    ensures { result ≡ placed name.now marks (names_of scope.now) ampersand need }
{
    Seen::Place(SeenPlace {
        at: name.at,
        marks,
        ampersand,
        meaning: scope.meaning(name.name.as_bytes()),
        need,
    })
}

#[cycle(expression)]
pub(crate) fn place(
    scope: &Scope<'_, '_>,
    place: &Place,
    ampersand: bool,
    need: Need,
    seen: &mut Vec<Seen>,
) -> Result<(), Memory>
    ensures { OnOk result (seen.new.items ≡ seen.old.items ++ seen_in_place place.now (names_of scope.now) ampersand need) }
{
    match place {
        Place::Plain { name } => Ok(seen.push(placed(scope, name, Marks::None, ampersand, need))?),
        Place::Index {
            name,
            mark_at,
            index,
        } => {
            seen.push(placed(scope, name, Marks::Once(*mark_at), ampersand, need))?;
            expression(scope, index.get(), Need::Number, seen)
        },
        Place::Index2 {
            name,
            first_at,
            first,
            second,
            ..
        } => {
            seen.push(placed(scope, name, Marks::Twice(*first_at), ampersand, need))?;
            expression(scope, first.get(), Need::Number, seen)?;
            expression(scope, second.get(), Need::Number, seen)
        },
        Place::Deref { star_at, name } => {
            Ok(seen.push(placed(scope, name, Marks::Star(*star_at), ampersand, need))?)
        },
    }
}

#[cycle(expression)]
pub(crate) fn call(
    scope: &Scope<'_, '_>,
    call: &Call,
    need: Need,
    seen: &mut Vec<Seen>,
) -> Result<(), Memory>
    ensures { OnOk result (seen.new.items ≡ seen.old.items ++ seen_in_call call.now (names_of scope.now) need) }
{
    let name = call.name.name.as_bytes();
    seen.push(Seen::Call(SeenCall {
        at: call.name.at,
        called: scope.called(name),
        arguments: call.args.len(),
        need,
    }))?;
    arguments(scope, scope.meaning(name), call.args.as_slice(), seen)
}

#[cycle(expression)]
fn arguments(
    scope: &Scope<'_, '_>,
    callee: Option<Meaning>,
    args: &[Arg],
    seen: &mut Vec<Seen>,
) -> Result<(), Memory>
    ensures { OnOk result (seen.new.items ≡ seen.old.items ++ arguments_from args.now (names_of scope.now) callee 0) }
{
    for place in 0..args.len() {
        argument(scope, &args[place], scope.wanted(callee, place), seen)?;
    }
    Ok(())
}

#[cycle(expression)]
pub(crate) fn argument(
    scope: &Scope<'_, '_>,
    arg: &Arg,
    wanted: Wanted,
    seen: &mut Vec<Seen>,
) -> Result<(), Memory>
    ensures { OnOk result (seen.new.items ≡ seen.old.items ++ seen_in_argument arg.now (names_of scope.now) wanted) }
{
    match arg {
        Arg::Value(value) => expression(scope, value, need_of(wanted, value.at), seen),
        Arg::Address { at, place: given } => place(scope, given, true, need_of(wanted, *at), seen),
    }
}
