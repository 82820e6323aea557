// The words of the variables.

ghost use Rattle.std.specs.Prelude.{◌≡◌, ◌+◌, ◌≤◌, length, IfOk};
ghost use Rattle.lawful_sources.specs.Objects.{is_scalar};
ghost use Rattle.register_allocation.specs.Good.{slots_end};
ghost use Rattle.data_layout.specs.Slots.{slot_for, own_bytes, AreSlots};

use operator_meaning::Object;
use register_allocation::slots::SLOTS_END;
use register_allocation::{Home, Room};
use sat_base::Memory;
use sqlite_items::Items;
use std::alloc::Global;

/// The slots of the variables, by the numbers of the objects.
#[derive(Drop)]
pub struct Slots {
    pub slots: Items<Option<u32>>,
    /// The byte behind them and behind the slots of all homes.
    pub end: u32,
}

/// The slot of each variable: that of its home, and else a word of its own from there on. Memory is also answered
/// where these do not fit.
pub fn variable_slots(
    alloc: Global,
    objects: &[Object],
    rooms: &[Room],
    taken: u32,
) -> Result<Slots, Memory>
    requires { length rooms.now ≡ length objects.now }
    ensures { IfOk result (λ made. AreSlots objects.now rooms.now taken made.slots made.end) }
{
    let mut slots = Items::new(alloc);
    let mut end = taken;
    for (number, object) in objects.iter().enumerate() {
        let scalar = is_scalar(object);
        let home = rooms[number].home;
        slots.push(slot_for(scalar, end, home))?;
        end = data_end_of(end, own_bytes(scalar, home))?;
    }
    Ok(Slots { slots, end })
}

/// Whether an object is a variable: no array and no view.
pub fn is_scalar(object: &Object) -> bool
    ensures { result ≡ is_scalar object.now }
{
    !object.view && object.rows == 0
}

/// The slot of an object, where the next word of its own would begin there.
fn slot_for(scalar: bool, next: u32, home: Option<Home>) -> Option<u32>
    ensures { result ≡ slot_for scalar next home }
{
    if !scalar {
        return None;
    }
    match home {
        Some(Home::Slot(from)) => Some(from),
        Some(Home::Register(_)) | None => Some(next),
    }
}

/// The bytes of the word of its own that an object gets.
fn own_bytes(scalar: bool, home: Option<Home>) -> u32
    ensures { result ≡ own_bytes scalar home }
{
    if !scalar {
        return 0;
    }
    match home {
        Some(Home::Slot(_)) => 0,
        Some(Home::Register(_)) | None => 4,
    }
}

/// Where so many bytes of the data memory end that start there.
pub fn data_end_of(from: u32, bytes: u32) -> Result<u32, Memory>
    ensures sum { IfOk result (λ end. end ≡ from + bytes) }
    ensures within { IfOk result (λ end. end ≤ slots_end) }
{
    match from.checked_add(bytes) {
        Some(end) if end <= SLOTS_END => Ok(end),
        _ => Err(Memory),
    }
}
