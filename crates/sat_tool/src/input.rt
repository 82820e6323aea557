// The samples that a run is given.

ghost use Rattle.std.specs.Prelude.{◌≡◌, ◌≤◌, ◌⊎◌, IfOk, IfErr};
ghost use Rattle.sat_tool.specs.Input.{IsNoInput, IsInputOf};
ghost use Rattle.sat_tool.specs.Reading.{Holds, Lacks};
ghost use Rattle.sat_tool.specs.World.{store_view};

use crate::files::read_file;
use command_outcomes::{Outcome, unfit};
use sample_files::{SampleRefusal, samples};
use sat_base::limits::SAMPLE_BYTES;
use std::alloc::Global;
use store_io::Store;

/// The samples in a file; else the run is over, with this outcome.
pub fn input_file<S: Store>(alloc: Global, store: &mut S, name: &str) -> Result<Vec<i16>, Outcome>
    ensures held { IfOk result (λ samples. Holds (IsInputOf samples.items) (S.files store.old) name.now) }
    ensures lacking { IfErr result (Lacks IsNoInput name.now
        (store_view (S.files store.old) (S.faults store.old)) (store_view (S.files store.new) (S.faults store.new))) }
    ensures same { S.files store.new ≡ S.files store.old }
    ensures later { S.faults store.old ≤ S.faults store.new }
{
    let bytes = read_file(alloc, store, name, SAMPLE_BYTES)?;
    input_in(alloc, &bytes)
}

// The samples in the bytes of their file; else the run is over, with this outcome.
fn input_in(alloc: Global, bytes: &[u8]) -> Result<Vec<i16>, Outcome>
    ensures samples { IfOk result (λ samples. IsInputOf samples.items bytes.now) }
    ensures stops { IfErr result (λ outcome. IsNoInput bytes.now outcome ⊎ (outcome ≡ Outcome.NoMemory)) }
{
    match samples(alloc, bytes) {
        Ok(input) => Ok(input),
        Err(SampleRefusal::TooLong) => Err(unfit(alloc, "samples too long\n")?),
        Err(SampleRefusal::OddLength) => Err(unfit(alloc, "samples odd\n")?),
        Err(SampleRefusal::Memory) => Err(Outcome::NoMemory),
    }
}
