// Whether an assignment is good.

ghost use Rattle.std.specs.Prelude.{◌≡◌, IfOk, IsTrue, false};
ghost use Rattle.ir_arena.specs.Placed.{whole_of};
ghost use Rattle.register_allocation.specs.Good.{IsGoodAssignment, AreAllSlots};

use crate::home::Assign;
use crate::spans::{all_lie_right, are_apart, spans};
use crate::table::{are_full, room_table};
use ir_arena::Ir;
use sat_base::Memory;
use std::alloc::Global;

/// Whether the assignment is good for the tree. So far one with a register is answered false, be it good or not.
pub fn check_assign(alloc: Global, ir: &Ir<'_>, assign: &Assign) -> Result<bool, Memory>
    ensures good { IfOk result (λ good. IsTrue good → IsGoodAssignment (whole_of ir.now) assign.now) }
    ensures exact { IfOk result (λ good. good ≡ false → AreAllSlots assign.now.functions
        → IsGoodAssignment (whole_of ir.now) assign.now → ⊥) }
{
    let objects = ir.objects.as_slice();
    let lists = assign.functions.as_slice();
    if lists.len() != ir.functions.len() {
        return Ok(false);
    }
    let table = room_table(alloc, objects, lists)?;
    let rooms = table.rooms.as_slice();
    if !are_full(lists, &table.counts) {
        return Ok(false);
    }
    if !all_lie_right(rooms) {
        return Ok(false);
    }
    let mut spans = spans(alloc, rooms)?;
    Ok(are_apart(&mut spans))
}
