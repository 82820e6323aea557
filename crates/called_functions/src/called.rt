// The functions that expressions, places, arguments and calls call.

ghost use Rattle.std.specs.Prelude.{◌≡◌, ◌++◌, OnOk, flat_map};
ghost use Rattle.called_functions.specs.Called.{called_in_argument, called_in_call, called_in_expression, called_in_place, called_function};

use c_typed::{Callee, TypedArg, TypedCall, TypedExpr, TypedExprKind, TypedPlace};
use sat_base::Memory;
use sqlite_items::Items;

/// Adds the functions of the source that an expression calls.
#[cycle(expression)]
pub(crate) fn add_expression(called: &mut Items<u32>, e: &TypedExpr) -> Result<(), Memory>
    ensures { OnOk result (called.new ≡ called.old ++ called_in_expression e.now) }
{
    match &e.kind {
        TypedExprKind::Int(_) => Ok(()),
        TypedExprKind::Read(place) => add_place(called, place.get()),
        TypedExprKind::ReadOverflow { .. } => Ok(()),
        TypedExprKind::Unary { part, .. } => add_expression(called, part.get()),
        TypedExprKind::Binary { left, right, .. } => {
            add_expression(called, left.get())?;
            add_expression(called, right.get())
        }
        TypedExprKind::Cast { part, .. } => add_expression(called, part.get()),
        TypedExprKind::Convert { part, .. } => add_expression(called, part.get()),
        TypedExprKind::Choose { cond, yes, no } => {
            add_expression(called, cond.get())?;
            add_expression(called, yes.get())?;
            add_expression(called, no.get())
        }
        TypedExprKind::Call(call) => add_call(called, call),
    }
}

#[cycle(expression)]
pub(crate) fn add_place(called: &mut Items<u32>, place: &TypedPlace) -> Result<(), Memory>
    ensures { OnOk result (called.new ≡ called.old ++ called_in_place place.now) }
{
    match place {
        TypedPlace::Plain { .. } => Ok(()),
        TypedPlace::Index { index, .. } => add_expression(called, index.get()),
        TypedPlace::Index2 { first, second, .. } => {
            add_expression(called, first.get())?;
            add_expression(called, second.get())
        }
        TypedPlace::Deref { .. } => Ok(()),
    }
}

#[cycle(expression)]
pub(crate) fn add_argument(called: &mut Items<u32>, arg: &TypedArg) -> Result<(), Memory>
    ensures { OnOk result (called.new ≡ called.old ++ called_in_argument arg.now) }
{
    match arg {
        TypedArg::Value(e) => add_expression(called, e),
        TypedArg::Address { place, .. } => add_place(called, place),
    }
}

#[cycle(expression)]
pub(crate) fn add_call(called: &mut Items<u32>, call: &TypedCall) -> Result<(), Memory>
    ensures { OnOk result (called.new ≡ called.old ++ called_in_call call.now) }
{
    add_callee(called, call.callee)?;
    for arg in call.args.as_slice() {
        add_argument(called, arg)?;
    }
    Ok(())
}

/// Adds what is called, where it is a function of the source.
fn add_callee(called: &mut Items<u32>, callee: Callee) -> Result<(), Memory>
    ensures { OnOk result (called.new ≡ called.old ++ called_function callee) }
{
    match callee {
        Callee::Function(number) => {
            called.push(number)?;
            Ok(())
        }
        _ => Ok(()),
    }
}
