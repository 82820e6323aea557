// Slots as parts of the data memory: whether they lie right, and whether they overlap.

ghost use Rattle.std.specs.Prelude.{◌≡◌, ℕ, ◌↔◌, length, IfOk, IsTrue};
ghost use Rattle.std.specs.List.{IsDistinct, list_all};
ghost use Rattle.register_allocation.specs.Overlaps.{HaveBytes, lies_right, span_of_home, spans_of, precedes, overlaps};

use crate::home::Home;
use crate::slots::SLOTS_END;
use crate::table::Room;
use sat_base::Memory;
use std::alloc::Global;

/// A slot: where it starts, and its bytes.
#[derive(Clone, Copy, Debug, PartialEq, Eq)]
pub struct Span {
    pub from: u32,
    pub bytes: u32,
}

/// Whether the home of an object is a slot that lies right, if it has a home.
fn lies_right(room: Room) -> bool
    ensures { result ≡ lies_right room }
{
    match room.home {
        None => true,
        Some(Home::Register(_)) => false,
        Some(Home::Slot(from)) => {
            from % 4 == 0 && u64::from(from) + u64::from(room.bytes) <= u64::from(SLOTS_END)
        }
    }
}

/// Whether those of all objects do.
pub fn all_lie_right(rooms: &[Room]) -> bool
    ensures { result ≡ list_all lies_right rooms.now }
{
    rooms.iter().all(|room| lies_right(*room))
}

/// The slot of an object, if it has one.
fn span_of(room: Room) -> Option<Span>
    ensures { result ≡ span_of_home room.bytes room.home }
{
    match room.home {
        Some(Home::Slot(from)) => Some(Span {
            from,
            bytes: room.bytes,
        }),
        Some(Home::Register(_)) | None => None,
    }
}

/// The slots, in the order of the objects.
pub fn spans(alloc: Global, rooms: &[Room]) -> Result<Vec<Span>, Memory>
    ensures { IfOk result (λ spans. spans.items ≡ spans_of rooms.now) }
{
    let mut spans = Vec::new(alloc);
    for room in rooms {
        match span_of(*room) {
            Some(span) => spans.push(span)?,
            None => {}
        }
    }
    Ok(spans)
}

/// Whether the slots overlap nowhere: in their order each ends before the next one starts.
pub fn are_apart(spans: &mut [Span]) -> bool
    requires { HaveBytes spans.old }
    ensures { IsTrue result ↔ IsDistinct overlaps spans.old }
{
    spans.sort_unstable_by_key(|span| span.from);
    spans.is_sorted_by(|span, next| precedes(*span, *next))
}

/// Whether a slot ends before another starts.
fn precedes(span: Span, next: Span) -> bool
    ensures { result ≡ precedes span next }
{
    u64::from(span.from) + u64::from(span.bytes) <= u64::from(next.from)
}
