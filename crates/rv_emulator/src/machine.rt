// The machine, which runs an image.

ghost use Rattle.std.specs.Prelude.{◌≡◌, ◌-◌, [], IfOk};
ghost use Rattle.rv_emulator.specs.After.{GoesOn, IsAfter};
ghost use Rattle.rv_emulator.specs.Pauses.{IsRun, loaded_with, samples_of};

use crate::effects::Step;
use crate::memory::DataMemory;
use crate::pause::Pause;
use crate::samples::Samples;
use crate::state::{Ending, Hart};
use crate::step::{CODE_START, carry_out};
use image_format::Image;
use sat_base::Memory;
use sqlite_items::Items;
use std::alloc::Global;
use std::marker::Model;

/// A machine with an image in it, at some moment of its run.
#[derive(Debug, Drop)]
pub struct Machine {
    code: Items<u32>,
    hart: Hart,
    ending: Option<Ending>,
}

impl Model for Machine {
    ghost use Rattle.rv_emulator.specs.Pauses.{Emulation, moment_with};

    ghost Value = { Emulation };

    ghost view = { λ m. record { code = m.code; moment = moment_with m.hart m.ending } };
}

impl Machine {
    /// A machine before its first instruction: all registers are 0, the pc is at the first word of the code,
    /// and the data memory has the image's first content.
    pub fn load(alloc: Global, image: &Image, input: &[i16]) -> Result<Machine, Memory>
        ensures loaded { IfOk result (λ machine. machine ≡ loaded_with image.now input.now) }
        ensures first { IfOk result (IsAfter image.now input.now 0 []) }
    {
        Ok(Machine {
            code: Items::from_slice(alloc, image.code.as_slice())?,
            hart: Hart {
                registers: [0; 32],
                pc: CODE_START,
                memory: DataMemory::from_slice(alloc, image.memory.as_slice())?,
                input: Samples::from_slice(alloc, input)?,
            },
            ending: None,
        })
    }

    /// Runs the machine until it writes a sample, its run is over, or `left` instructions are carried out.
    /// Each instruction lowers `left` by one. A machine whose run is over takes no step, and answers the same
    /// again. So after any calls that lowered `left` by m in all the machine is where m instructions lead, and the
    /// samples that were told, in order, are its output.
    pub fn run(&mut self, left: &mut u64) -> Pause
        ensures run { IsRun self.old self.new left.old left.new result }
        ensures goes_on { GoesOn self.old self.new (left.old - left.new) (samples_of result) }
    {
        self.run_on(left)
    }

    fn run_on(&mut self, left: &mut u64) -> Pause
        ensures { IsRun self.old self.new left.old left.new result }
    {
        if let Some(ending) = self.ending {
            return ending.into();
        }
        while *left > 0 {
            *left -= 1;
            match carry_out(self.code.as_slice(), &mut self.hart) {
                Step::Goes => {}
                Step::Writes(sample) => return Pause::Wrote(sample),
                Step::Ends(ending) => {
                    self.ending = Some(ending);
                    return ending.into();
                }
            }
        }
        Pause::Budget
    }
}
