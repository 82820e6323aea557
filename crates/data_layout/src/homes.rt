// Where the slots of all homes end.

ghost use Rattle.std.specs.Prelude.{◌≡◌, ◌≤◌};
ghost use Rattle.register_allocation.specs.Good.{slots_end};
ghost use Rattle.data_layout.specs.Homes.{room_end, EndRight, IsBehind};

use register_allocation::{Home, Room};

/// The byte behind the slots of all homes, be they of variables or of views.
pub fn homes_end(rooms: &[Room]) -> u32
    requires { EndRight rooms.now }
    ensures { IsBehind rooms.now result }
{
    let mut end = 0;
    for room in rooms {
        end = room_end(*room).max(end);
    }
    end
}

/// Where the slot of an object ends; 0 where it has none.
fn room_end(room: Room) -> u32
    requires { room_end room ≤ slots_end }
    ensures { result ≡ room_end room }
{
    match room.home {
        Some(Home::Slot(from)) => from + room.bytes,
        Some(Home::Register(_)) | None => 0,
    }
}
