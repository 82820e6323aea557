// What a run of the machine answers.

use crate::state::Ending;
use sat_base::MachineFault;

/// Why the machine paused.
#[derive(Clone, Copy, Debug, PartialEq, Eq)]
pub enum Pause {
    /// The instructions that were allowed are used up, and the machine would go on.
    Budget,
    /// The last instruction wrote this sample.
    Wrote(i16),
    /// The run ended, with the value of Overflow and the weighted count modulo 2^64.
    Ended { overflow: i32, count: u64 },
    /// The run stopped at this site.
    Stopped { site: u32 },
    /// The instruction at this pc faulted.
    Fault { pc: u32, kind: MachineFault },
}

impl From<Ending> for Pause {
    ghost use Rattle.rv_emulator.specs.Endings.{IsPauseOf};

    ghost from_gives = { λ ending pause. IsPauseOf ending pause };

    fn from(ending: Ending) -> Pause {
        match ending {
            Ending::Ended { overflow, count } => Pause::Ended { overflow, count },
            Ending::Stopped { site } => Pause::Stopped { site },
            Ending::Faulted { pc, kind } => Pause::Fault { pc, kind },
        }
    }
}
