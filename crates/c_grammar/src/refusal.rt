// Why tokens are not read into a tree.

use sat_base::{Memory, Pos};
use std::alloc::AllocError;

/// Why tokens are not read into a tree.
#[derive(Clone, Copy, Debug, PartialEq, Eq)]
pub enum ReadRefusal {
    /// A front of some tree spells the tokens before this one, and with this one they begin no source. Its number may
    /// be that of all tokens; then they are no whole source, and the place is that after the last byte.
    Syntax { tok: u32, pos: Pos },
    /// The tokens up to this one begin no source whose tree is within the depth that is allowed, and a front of some
    /// tree that spells them, with this one or without it, is deeper. Where the tokens break the grammar too, either
    /// may be told.
    TooDeep { tok: u32, pos: Pos },
    /// Want of memory.
    Memory,
}

impl From<Memory> for ReadRefusal {
    ghost use Rattle.std.specs.Prelude.{◌≡◌};
    ghost use Rattle.c_grammar.specs.declared.refusal.ReadRefusal.TheVariants.{Memory};

    ghost from_gives = { λ _ refusal. refusal ≡ Memory };

    fn from(_error: Memory) -> ReadRefusal {
        ReadRefusal::Memory
    }
}

impl From<AllocError> for ReadRefusal {
    ghost use Rattle.std.specs.Prelude.{◌≡◌};
    ghost use Rattle.c_grammar.specs.declared.refusal.ReadRefusal.TheVariants.{Memory};

    ghost from_gives = { λ _ refusal. refusal ≡ Memory };

    fn from(_error: AllocError) -> ReadRefusal {
        ReadRefusal::Memory
    }
}
