// The environment calls.

ghost use Rattle.std.specs.Prelude.{◌≡◌, []};
ghost use Rattle.sat_base.specs.Clip.{low16};
ghost use Rattle.rv_encode.specs.State.{register, count_of};
ghost use Rattle.rv_encode.specs.Effects.{calls};
ghost use Rattle.rv_emulator.specs.Steps.{state_of, HasEffect};

use crate::effects::Step;
use crate::state::{Ending, Hart};
use sat_base::{MachineFault, low16};

impl Hart {
    /// An environment call, by the number in x17.
    pub fn call(&mut self) -> Step
        ensures { HasEffect result self.old self.new (λ s. calls s (register s 17)) }
    {
        match self.read(17) {
            1 => {
                let left = i32::from(!self.input.is_empty());
                self.set(10, left)
            }
            2 => match self.input.pop_front() {
                Some(sample) => self.set(10, i32::from(sample)),
                None => self.fault(MachineFault::Input),
            },
            3 => {
                let sample = self.sample();
                self.pc = self.pc.wrapping_add(4);
                Step::Writes(sample)
            }
            4 => Step::Ends(Ending::Ended {
                overflow: self.read(27),
                count: self.count(),
            }),
            5 => Step::Ends(Ending::Stopped {
                site: self.read(10).cast_unsigned(),
            }),
            _ => self.fault(MachineFault::Call),
        }
    }

    // The sample that a call writes.
    fn sample(&self) -> i16
        ensures { result ≡ low16 (register (state_of self.now []) 10) }
    {
        low16(self.read(10)) as i16
    }

    fn count(&self) -> u64
        ensures { result ≡ count_of (state_of self.now []) }
    {
        let upper = u64::from(self.read(25).cast_unsigned());
        let lower = u64::from(self.read(24).cast_unsigned());
        upper * 4_294_967_296 + lower
    }
}
