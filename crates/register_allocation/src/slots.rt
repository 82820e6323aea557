// A slot for every variable and every view, one behind the other.

ghost use Rattle.std.specs.Prelude.{◌≡◌, ℕ, ◌+◌, ◌≤◌, length, IfOk, OnOk, vec_len};
ghost use Rattle.ir_arena.specs.Placed.{whole_of};
ghost use Rattle.register_allocation.specs.Good.{IsGoodAssignment, AreAllSlots, slots_end};
ghost use Rattle.register_allocation.specs.Laid.{AreEmpty, AddsHome, AddsSlot};

use crate::claim::claim_of;
use crate::home::{Assign, Home, Homes};
use ir_arena::Ir;
use operator_meaning::Object;
use sat_base::Memory;
use sqlite_items::Items;
use std::alloc::Global;

/// The byte of the data memory at which slots end, or below.
pub const SLOTS_END: u32 = 4_194_304;

/// A slot for each tracked variable and each view, in the order of the declarations over all functions, one behind
/// the other. Memory is also answered where they do not fit: there must be more than 349,525 of them for that, and
/// the limits of the language allow fewer objects.
pub fn assign(alloc: Global, ir: &Ir<'_>) -> Result<Assign, Memory>
    ensures good { IfOk result (λ assign. IsGoodAssignment (whole_of ir.now) assign) }
    ensures slots { IfOk result (λ assign. AreAllSlots assign.functions) }
{
    let objects = ir.objects.as_slice();
    let mut lists = empty_lists(alloc, ir.functions.len())?;
    let mut end = 0;
    for number in 0..numbered(objects.len())? {
        end = add_slot(objects, number, end, &mut lists)?;
    }
    Ok(Assign {
        functions: Items::from_vec(lists),
    })
}

/// The numbers below this one are those of the objects. No tree has so many that one has none.
pub fn numbered(count: usize) -> Result<u32, Memory>
    ensures { IfOk result (λ number. number ≡ count) }
{
    match u32::try_from(count) {
        Ok(number) => Ok(number),
        Err(_) => Err(Memory),
    }
}

/// An empty list for each function.
fn empty_lists(alloc: Global, functions: usize) -> Result<Vec<Homes>, Memory>
    ensures count { IfOk result (λ lists. vec_len lists ≡ functions) }
    ensures empty { IfOk result (λ lists. AreEmpty lists.items) }
{
    let mut lists = Vec::new(alloc);
    for _ in 0..functions {
        lists.push(Homes {
            homes: Items::new(alloc),
        })?;
    }
    Ok(lists)
}

/// Gives the object of this number a slot from there on, if it has a home, and answers where the next slot starts.
fn add_slot(objects: &[Object], number: u32, from: u32, lists: &mut [Homes]) -> Result<u32, Memory>
    ensures count { length lists.new ≡ length lists.old }
    ensures slot { IfOk result (λ end. AddsSlot objects.now number from end lists.old lists.new) }
{
    let Some(claim) = claim_of(objects, number) else {
        return Ok(from);
    };
    let end = slot_end_of(from, claim.bytes())?;
    add_home(lists, claim.function, Home::Slot(from))?;
    Ok(end)
}

/// Where so many bytes end that start there.
fn slot_end_of(from: u32, bytes: u32) -> Result<u32, Memory>
    ensures sum { IfOk result (λ end. end ≡ from + bytes) }
    ensures within { IfOk result (λ end. end ≤ slots_end) }
{
    match from.checked_add(bytes) {
        Some(end) if end <= SLOTS_END => Ok(end),
        _ => Err(Memory),
    }
}

/// Adds a home at the end of the list of a function, if there is such a list.
fn add_home(lists: &mut [Homes], function: u32, home: Home) -> Result<(), Memory>
    ensures count { length lists.new ≡ length lists.old }
    ensures home { OnOk result (AddsHome lists.old lists.new function home) }
{
    let at = function as usize;
    if at < lists.len() {
        let homes = &mut lists[at];
        homes.homes.push(home)?;
    }
    Ok(())
}
