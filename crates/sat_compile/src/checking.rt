// From a tree to a source whose names are tied.

ghost use Rattle.std.specs.Prelude.{◌≡◌, IfOk, IfErr};
ghost use Rattle.sat_compile.specs.Checked.{IsChecked, IsUnchecked, name_at, names_in};
ghost use Rattle.sat_compile.specs.Passing.{IsFaultPassed, IsRecursionPassed};
ghost use Rattle.std.specs.Prelude.{slice_get};

use crate::refusal::CompileRefusal;
use c_tree::Program;
use c_typed::Typed;
use c_types::typed;
use call_structure::{Order, OrderRefusal, order};
use sat_base::{Fault, FaultKind, Memory, Name, Pos};
use sqlite_items::Items;
use std::alloc::Global;

/// A source: its tree with the names tied, and its functions, callers first.
#[derive(Drop)]
pub struct Front {
    pub typed: Typed,
    pub order: Order,
}

/// The source of a tree, exactly where the tree has no fault, passes no limit, and no function in it reaches itself.
pub fn checked(alloc: Global, program: &Program) -> Result<Front, CompileRefusal>
    ensures checked { IfOk result (λ front. IsChecked program.now front.typed front.order.functions) }
    ensures refused { IfErr result (IsUnchecked program.now) }
{
    let typed = match typed(alloc, program) {
        Ok(typed) => typed,
        Err(fault) => return Err(faulty(fault)),
    };
    match order(alloc, &typed) {
        Ok(order) => Ok(Front { typed, order }),
        Err(OrderRefusal::Memory) => Err(CompileRefusal::Memory),
        Err(OrderRefusal::Recursive { pos, cycle }) => {
            Err(recursive(alloc, &typed, pos, cycle.as_slice())?)
        }
    }
}

fn faulty(fault: Fault) -> CompileRefusal
    ensures { IsFaultPassed fault result }
{
    match fault.kind {
        FaultKind::Memory => CompileRefusal::Memory,
        _ => CompileRefusal::Faulty(fault),
    }
}

/// The refusal for a cycle of calls, told by the names of its functions.
fn recursive(
    alloc: Global,
    typed: &Typed,
    pos: Pos,
    cycle: &[u32],
) -> Result<CompileRefusal, Memory>
    ensures { IfOk result (IsRecursionPassed typed.now pos cycle.now) }
{
    let mut names = Items::new(alloc);
    for number in cycle {
        names.push(name_of(alloc, typed, *number)?)?;
    }
    Ok(CompileRefusal::Recursive { pos, names })
}

/// The name of the function of this number; no name where there is none.
fn name_of(alloc: Global, typed: &Typed, number: u32) -> Result<Name, Memory>
    ensures { IfOk result (λ name. name ≡ name_at (slice_get typed.now.functions number)) }
{
    let bytes = match typed.functions.get(number as usize) {
        Some(function) => function.name.as_bytes(),
        None => &[],
    };
    Ok(Name::from_slice(alloc, bytes)?)
}
