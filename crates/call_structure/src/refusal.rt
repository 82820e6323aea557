// Why the functions of a source have no order.

use sat_base::{Memory, Pos};
use sqlite_items::Items;

/// The refusal of `order`.
#[derive(Debug, Drop)]
pub enum OrderRefusal {
    /// A function reaches itself: the name in its definition, and a cycle of calls by the numbers of the functions, from
    /// the first such function in the order of the definitions to itself.
    Recursive { pos: Pos, cycle: Items<u32> },
    /// Want of memory.
    Memory,
}

impl From<Memory> for OrderRefusal {
    ghost use Rattle.std.specs.Prelude.{◌≡◌};
    ghost use Rattle.call_structure.specs.declared.refusal.OrderRefusal.TheVariants.{Memory};

    ghost from_gives = { λ _ refusal. refusal ≡ Memory };

    fn from(_memory: Memory) -> OrderRefusal {
        OrderRefusal::Memory
    }
}
