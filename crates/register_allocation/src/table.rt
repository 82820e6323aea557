// The homes by the numbers of the objects.

ghost use Rattle.std.specs.Prelude.{◌≡◌, ℕ, ◌+◌, ◌<◌, ◌↔◌, length, slice_index, IfOk, IsTrue};
ghost use Rattle.register_allocation.specs.Homes.{home_of};
ghost use Rattle.register_allocation.specs.Good.{slot_bytes};
ghost use Rattle.register_allocation.specs.Tables.{AreRooms, AreCounts, AreFull};

use crate::claim::claim_of;
use crate::home::{Home, Homes};
use crate::slots::numbered;
use operator_meaning::Object;
use sat_base::Memory;
use sqlite_items::Items;
use std::alloc::Global;

/// Where an object lives.
#[derive(Clone, Copy, Debug, PartialEq, Eq)]
pub struct Room {
    /// Its home. None is an object that has none, or whose home is missing in the list of its function.
    pub home: Option<Home>,
    /// The bytes that a slot of it has; 0 where it has no home.
    pub bytes: u32,
}

/// What the lists say, by the numbers of the objects.
#[derive(Drop)]
pub struct RoomTable {
    pub rooms: Items<Room>,
    /// How many homes each list is to have.
    pub counts: Vec<usize>,
}

/// The rooms of all objects, by their numbers.
pub fn rooms(alloc: Global, objects: &[Object], lists: &[Homes]) -> Result<Items<Room>, Memory>
    ensures { IfOk result (λ rooms. AreRooms objects.now lists.now rooms) }
{
    let table = room_table(alloc, objects, lists)?;
    Ok(table.rooms)
}

/// Walks over the objects.
pub fn room_table(alloc: Global, objects: &[Object], lists: &[Homes]) -> Result<RoomTable, Memory>
    ensures rooms { IfOk result (λ table. AreRooms objects.now lists.now table.rooms) }
    ensures count { IfOk result (λ table. length table.counts.items ≡ length lists.now) }
    ensures counts { IfOk result (λ table. AreCounts objects.now (length objects.now) table.counts.items) }
{
    let mut counts = vec![in alloc; 0; lists.len()]?;
    let mut rooms = Items::new(alloc);
    for number in 0..numbered(objects.len())? {
        let home = next_home(objects, lists, &mut counts, number);
        rooms.push(Room {
            home,
            bytes: slot_bytes(objects, number),
        })?;
    }
    Ok(RoomTable { rooms, counts })
}

/// The bytes that a slot of the object of this number has.
fn slot_bytes(objects: &[Object], number: u32) -> u32
    ensures { result ≡ slot_bytes objects.now number }
{
    match claim_of(objects, number) {
        Some(claim) => claim.bytes(),
        None => 0,
    }
}

/// The home of the object of this number, by how many of each function came before it.
fn next_home(
    objects: &[Object],
    lists: &[Homes],
    counts: &mut Vec<usize>,
    number: u32,
) -> Option<Home>
    requires same { length counts.old.items ≡ length lists.now }
    requires counts { AreCounts objects.now number counts.old.items }
    ensures home { result ≡ home_of objects.now lists.now number }
    ensures same { length counts.new.items ≡ length counts.old.items }
    ensures counts { AreCounts objects.now (number + 1) counts.new.items }
{
    let Some(claim) = claim_of(objects, number) else {
        return None;
    };
    let function = claim.function as usize;
    if function >= counts.len() {
        return None;
    }
    let place = counts[function];
    counts[function] = place + 1;
    let list = &lists[function];
    list.homes.get(place).copied()
}

/// Whether each list has as many homes as it is to have.
pub fn are_full(lists: &[Homes], counts: &[usize]) -> bool
    requires { length counts.now ≡ length lists.now }
    ensures { IsTrue result ↔ AreFull lists.now counts.now }
{
    for (function, list) in lists.iter().enumerate() {
        if list.homes.len() != counts[function] {
            return false;
        }
    }
    true
}
