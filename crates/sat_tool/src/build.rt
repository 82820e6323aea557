// `build SRC IMG`: from a source to the file of its image.

ghost use Rattle.std.specs.Prelude.{◌≡◌, ◌≤◌, [], IfOk, IfErr};
ghost use Rattle.sat_compile.specs.Accepted.{IsImageOf};
ghost use Rattle.command_words.specs.Command.{Build};
ghost use Rattle.sat_tool.specs.Commands.{inputs_of};
ghost use Rattle.sat_tool.specs.Outcomes.{InAnyCase, IsNotCompiled, BuildsText};
ghost use Rattle.sat_tool.specs.Run.{Course};
ghost use Rattle.sat_tool.specs.World.{store_view};

use crate::files::{read_file, write_file};
use command_outcomes::{Outcome, refusal_line, sites};
use image_format::write_bytes;
use sat_base::limits::SOURCE_BYTES;
use sat_compile::{Built, CompileRefusal, compile};
use std::alloc::Global;
use store_io::Store;

/// Compiles the file `source` into the file `image`.
pub fn build<S: Store>(
    alloc: Global,
    store: &mut S,
    source: &str,
    image: &str,
) -> Result<Outcome, Outcome>
    ensures course { InAnyCase result (Course (Build source.now image.now) (inputs_of (Build source.now image.now)) []
        (store_view (S.files store.old) (S.faults store.old)) (store_view (S.files store.new) (S.faults store.new))) }
    ensures later { S.faults store.old ≤ S.faults store.new }
{
    let text = read_file(alloc, store, source, SOURCE_BYTES)?;
    build_text(alloc, store, &text, image)
}

// Compiles a text into the file `image`. All that wants memory comes before the write.
fn build_text<S: Store>(
    alloc: Global,
    store: &mut S,
    text: &[u8],
    image: &str,
) -> Result<Outcome, Outcome>
    ensures builds { InAnyCase result (BuildsText text.now image.now
        (store_view (S.files store.old) (S.faults store.old)) (store_view (S.files store.new) (S.faults store.new))) }
    ensures later { S.faults store.old ≤ S.faults store.new }
{
    let built = compiled(alloc, text)?;
    let bytes = write_bytes(alloc, &built.image)?;
    let report = sites(alloc, built.image.sites.len())?;
    write_file(alloc, store, image, &bytes, report)
}

// What is made of a text; else the run is over, with this outcome.
fn compiled(alloc: Global, text: &[u8]) -> Result<Built, Outcome>
    ensures built { IfOk result (λ built. IsImageOf text.now built.image) }
    ensures stops { IfErr result (IsNotCompiled text.now) }
{
    match compile(alloc, text) {
        Ok(built) => Ok(built),
        Err(CompileRefusal::Memory) => Err(Outcome::NoMemory),
        Err(refusal) => Err(Outcome::Refused(refusal_line(alloc, &refusal)?)),
    }
}
