// The functions that statements and blocks call.

ghost use Rattle.std.specs.Prelude.{◌≡◌, ◌++◌, OnOk, flat_map};
ghost use Rattle.called_functions.specs.Called.{called_in_block, called_in_expression, called_in_option, called_in_simple, called_in_start, called_in_statement};

use crate::called::{add_argument, add_call, add_expression, add_place};
use c_typed::{Start, TypedBlock, TypedExpr, TypedSimple, TypedStmt};
use sat_base::Memory;
use sqlite_items::{Boxed, Items};

/// Adds the functions of the source that a block calls.
#[cycle(statement)]
pub(crate) fn add_block(called: &mut Items<u32>, block: &TypedBlock) -> Result<(), Memory>
    ensures { OnOk result (called.new ≡ called.old ++ called_in_block block.now) }
{
    add_starts(called, block.objects.as_slice())?;
    for stmt in block.stmts.as_slice() {
        add_statement(called, stmt)?;
    }
    Ok(())
}

#[cycle(statement)]
fn add_statement(called: &mut Items<u32>, stmt: &TypedStmt) -> Result<(), Memory>
    ensures { OnOk result (called.new ≡ called.old ++ called_in_statement stmt.now) }
{
    match stmt {
        TypedStmt::Empty { .. } => Ok(()),
        TypedStmt::Block(block) => add_block(called, block),
        TypedStmt::Simple(simple) => add_simple(called, simple),
        TypedStmt::If { cond, yes, no, .. } => {
            add_expression(called, cond.get())?;
            add_statement(called, yes.get())?;
            match no {
                Some(no) => add_statement(called, no.get()),
                None => Ok(()),
            }
        }
        TypedStmt::While { cond, body, .. } => {
            add_expression(called, cond.get())?;
            add_statement(called, body.get())
        }
        TypedStmt::Do { body, cond, .. } => {
            add_statement(called, body.get())?;
            add_expression(called, cond.get())
        }
        TypedStmt::For {
            first,
            cond,
            last,
            body,
            ..
        } => {
            add_simples(called, first.as_slice())?;
            add_value(called, cond)?;
            add_simples(called, last.as_slice())?;
            add_statement(called, body.get())
        }
        TypedStmt::Break { .. } => Ok(()),
        TypedStmt::Continue { .. } => Ok(()),
        TypedStmt::Return { value, .. } => add_value(called, value),
    }
}

fn add_simple(called: &mut Items<u32>, simple: &TypedSimple) -> Result<(), Memory>
    ensures { OnOk result (called.new ≡ called.old ++ called_in_simple simple.now) }
{
    match simple {
        TypedSimple::Assign { place, value, .. } => {
            add_place(called, place.get())?;
            add_expression(called, value.get())
        }
        TypedSimple::Step { place, .. } => add_place(called, place.get()),
        TypedSimple::SetOverflow { value, .. } => add_expression(called, value.get()),
        TypedSimple::Call(call) => add_call(called, call),
    }
}

fn add_simples(called: &mut Items<u32>, simples: &[TypedSimple]) -> Result<(), Memory>
    ensures { OnOk result (called.new ≡ called.old ++ flat_map called_in_simple simples.now) }
{
    for simple in simples {
        add_simple(called, simple)?;
    }
    Ok(())
}

fn add_starts(called: &mut Items<u32>, starts: &[Start]) -> Result<(), Memory>
    ensures { OnOk result (called.new ≡ called.old ++ flat_map called_in_start starts.now) }
{
    for start in starts {
        add_start(called, start)?;
    }
    Ok(())
}

fn add_start(called: &mut Items<u32>, start: &Start) -> Result<(), Memory>
    ensures { OnOk result (called.new ≡ called.old ++ called_in_start start.now) }
{
    match &start.value {
        Some(value) => add_argument(called, value),
        None => Ok(()),
    }
}

fn add_value(called: &mut Items<u32>, value: &Option<Boxed<TypedExpr>>) -> Result<(), Memory>
    ensures { OnOk result (called.new ≡ called.old ++ called_in_option called_in_expression value.now) }
{
    match value {
        Some(e) => add_expression(called, e.get()),
        None => Ok(()),
    }
}
