// How a statement is left, and why a run is cut off.

use std::alloc::{AllocError, AllocFailed};

/// How a statement is left (C90, 6.6.6).
#[derive(Clone, Copy)]
pub enum Flow {
    /// To what follows it.
    Normal,
    /// By `break`.
    Break,
    /// By `continue`.
    Continue,
    /// By `return`, with its value; 0 where it has none.
    Return(i32),
}

/// Why a run is cut off before its end.
#[derive(Clone, Copy)]
pub enum Halt {
    /// There was no memory for it.
    Memory,
    /// It stopped at the site of this number.
    Stopped(u32),
    /// A loop would begin one turn more than it may.
    Going,
}

impl From<sat_base::Memory> for Halt {
    ghost use Rattle.std.specs.Prelude.{◌≡◌};
    ghost use Rattle.source_runs.specs.declared.halt.Halt.TheVariants.{Memory};

    ghost from_gives = { λ _ halt. halt ≡ Memory };

    fn from(_error: sat_base::Memory) -> Halt {
        Halt::Memory
    }
}

impl From<AllocError> for Halt {
    ghost use Rattle.std.specs.Prelude.{◌≡◌};
    ghost use Rattle.source_runs.specs.declared.halt.Halt.TheVariants.{Memory};

    ghost from_gives = { λ _ halt. halt ≡ Memory };

    fn from(_error: AllocError) -> Halt {
        Halt::Memory
    }
}

impl<T: Drop> From<AllocFailed<T>> for Halt {
    ghost use Rattle.std.specs.Prelude.{◌≡◌};
    ghost use Rattle.source_runs.specs.declared.halt.Halt.TheVariants.{Memory};

    ghost from_gives = { λ _ halt. halt ≡ Memory };

    fn from(_error: AllocFailed<T>) -> Halt {
        Halt::Memory
    }
}
