// The layout of a tree.

ghost use Rattle.std.specs.Prelude.{◌≡◌, ◌-◌, ◌*◌, IfOk, map};
ghost use Rattle.code_stacks.specs.Places.{in_registers};
ghost use Rattle.expression_code.specs.Straight.{is_wordless};
ghost use Rattle.expression_code.specs.Laws.{AreScalars};
ghost use Rattle.ir_arena.specs.Placed.{whole_of};
ghost use Rattle.register_allocation.specs.Good.{IsGoodAssignment};
ghost use Rattle.data_layout.specs.Layouts.{layout_of};
ghost use Rattle.data_layout.specs.Laid.{IsLaidFor, HasVariables, HasWordless, KeepsHomes};

use crate::homes::homes_end;
use crate::layout::DataLayout;
use crate::slots::{data_end_of, variable_slots};
use ir_arena::Ir;
use operator_meaning::{Op, Site, SiteKind};
use register_allocation::{Assign, rooms};
use sat_base::Memory;
use sqlite_items::Items;
use std::alloc::Global;

/// How many values are in registers, the lowest ones.
const IN_REGISTERS: u32 = 5;

/// Where the values of a tree lie, with so many of them at once. A variable lies in the slot of its home; one that has
/// none, or a register for its home, has a word of its own behind the slots of all homes. The words of values that have
/// no register follow. Memory is also answered where the data memory does not have room for them.
pub fn data_layout(
    alloc: Global,
    ir: &Ir<'_>,
    assign: &Assign,
    depth: u32,
) -> Result<DataLayout, Memory>
    requires { IsGoodAssignment (whole_of ir.now) assign.now }
    ensures laid { IfOk result (λ layout. IsLaidFor (layout_of layout)) }
    ensures variables { IfOk result (λ layout. HasVariables ir.now.objects (layout_of layout)) }
    ensures scalars { IfOk result (λ layout. AreScalars ir.now.objects (layout_of layout)) }
    ensures homes { IfOk result (λ layout. KeepsHomes ir.now.objects assign.now.functions (layout_of layout)) }
    ensures depth { IfOk result (λ layout. layout.depth ≡ depth) }
    ensures wordless { IfOk result (λ layout. HasWordless ir.now.sites (layout_of layout)) }
{
    let objects = ir.objects.as_slice();
    let rooms = rooms(alloc, objects, assign.functions.as_slice())?;
    let taken = homes_end(rooms.as_slice());
    let made = variable_slots(alloc, objects, rooms.as_slice(), taken)?;
    let kept = made.end;
    Ok(DataLayout {
        slots: made.slots,
        kept,
        depth,
        size: data_end_of(kept, kept_bytes(depth)?)?,
        wordless: wordless_sites(alloc, ir.sites.as_slice())?,
    })
}

/// The bytes of the values that have no register.
fn kept_bytes(depth: u32) -> Result<u32, Memory>
    ensures { IfOk result (λ bytes. bytes ≡ 4 * (depth - in_registers)) }
{
    match depth.saturating_sub(IN_REGISTERS).checked_mul(4) {
        Some(bytes) => Ok(bytes),
        None => Err(Memory),
    }
}

/// Whether each site has no words.
fn wordless_sites(alloc: Global, sites: &[Site]) -> Result<Items<bool>, Memory>
    ensures { IfOk result (λ wordless. wordless ≡ map (λ site. is_wordless site.kind) sites.now) }
{
    let mut wordless = Items::new(alloc);
    for site in sites {
        wordless.push(is_wordless(site.kind))?;
    }
    Ok(wordless)
}

/// A site that copies a number has none.
fn is_wordless(kind: SiteKind) -> bool
    ensures { result ≡ is_wordless kind }
{
    matches!(kind, SiteKind::Call(Op::LDepositL))
}
