// What comes of a run, of an image or of a source.

ghost use Rattle.std.specs.Prelude.{◌≡◌, ◌≤◌};
ghost use Rattle.sample_files.specs.Samples.{sample_bytes};
ghost use Rattle.sat_tool.specs.Outcomes.{InAnyCase};
ghost use Rattle.sat_tool.specs.Run.{Writes};
ghost use Rattle.sat_tool.specs.World.{store_view};

use crate::files::write_file;
use command_outcomes::Outcome;
use sample_files::bytes_of;
use std::alloc::Global;
use store_io::Store;

/// What comes of a run.
#[derive(Debug, Drop)]
pub struct RunResult {
    /// What was written, as far as the run went.
    pub output: Vec<i16>,
    /// What the run comes to.
    pub outcome: Outcome,
}

/// Writes the output to its file, however the run went. All that wants memory comes before the write.
pub fn write_result<S: Store>(
    alloc: Global,
    store: &mut S,
    name: &str,
    ran: RunResult,
) -> Result<Outcome, Outcome>
    ensures writes { InAnyCase result (Writes (record { name = name.now; bytes = sample_bytes ran.output.items }) ran.outcome
        (store_view (S.files store.old) (S.faults store.old)) (store_view (S.files store.new) (S.faults store.new))) }
    ensures later { S.faults store.old ≤ S.faults store.new }
{
    let bytes = bytes_of(alloc, &ran.output)?;
    write_file(alloc, store, name, &bytes, ran.outcome)
}
