// Why a graph has no order.

use sat_base::Memory;
use sqlite_items::Items;

/// The refusal of `order`.
#[derive(Debug, Drop)]
pub enum OrderRefusal {
    /// A function reaches itself: a cycle of calls, from the first such function to itself.
    Recursive { cycle: Items<usize> },
    /// Want of memory.
    Memory,
}

impl From<Memory> for OrderRefusal {
    ghost use Rattle.std.specs.Prelude.{◌≡◌};
    ghost use Rattle.call_graph.specs.declared.refusal.OrderRefusal.TheVariants.{Memory};

    ghost from_gives = { λ _ refusal. refusal ≡ Memory };

    fn from(_memory: Memory) -> OrderRefusal {
        OrderRefusal::Memory
    }
}
