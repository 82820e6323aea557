// The files of a command.

ghost use Rattle.std.specs.Prelude.{◌≡◌, ◌≤◌, IfOk, IfErr};
ghost use Rattle.store_io.specs.Outside.{ReadsFile};
ghost use Rattle.sat_tool.specs.Outcomes.{InAnyCase};
ghost use Rattle.sat_tool.specs.Run.{Unread, Writes};
ghost use Rattle.sat_tool.specs.World.{store_view};

use command_outcomes::{Outcome, cannot_read, cannot_write, missing};
use std::alloc::Global;
use store_io::{ReadFail, Store, WriteFail};

/// The first `most + 1` bytes of a file, or all of it where it is shorter; else the run is over, with this outcome.
pub fn read_file<S: Store>(
    alloc: Global,
    store: &mut S,
    name: &str,
    most: usize,
) -> Result<Vec<u8>, Outcome>
    ensures text { IfOk result (λ text. ReadsFile (S.files store.old) name.now most text.items) }
    ensures unread { IfErr result (Unread name.now
        (store_view (S.files store.old) (S.faults store.old)) (store_view (S.files store.new) (S.faults store.new))) }
    ensures same { S.files store.new ≡ S.files store.old }
    ensures later { S.faults store.old ≤ S.faults store.new }
{
    match store.read(alloc, name, most as u64) {
        Ok(text) => Ok(text),
        Err(ReadFail::Missing) => Err(missing(alloc, name)?),
        Err(ReadFail::Failed) => Err(cannot_read(alloc, name)?),
        Err(ReadFail::Memory) => Err(Outcome::NoMemory),
    }
}

/// Writes the one file of a run whose job is done. The line for a write that fails is made before it, so that
/// nothing but the put comes after the write.
pub fn write_file<S: Store>(
    alloc: Global,
    store: &mut S,
    name: &str,
    bytes: &[u8],
    done: Outcome,
) -> Result<Outcome, Outcome>
    ensures writes { InAnyCase result (Writes (record { name = name.now; bytes = bytes.now }) done
        (store_view (S.files store.old) (S.faults store.old)) (store_view (S.files store.new) (S.faults store.new))) }
    ensures later { S.faults store.old ≤ S.faults store.new }
{
    let failure = cannot_write(alloc, name)?;
    match store.write(alloc, name, bytes) {
        Ok(()) => Ok(done),
        Err(WriteFail::Failed) => Err(failure),
        Err(WriteFail::Memory) => Err(Outcome::NoMemory),
    }
}
