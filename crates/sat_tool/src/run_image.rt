// `run-image IMG IN OUT STEPS`: an image on the machine.

ghost use Rattle.std.specs.Prelude.{◌≡◌, ◌≤◌, ◌⊎◌, ℤ, List, [], IfOk, IfErr};
ghost use Rattle.image_format.specs.Reading.{IsFileOf};
ghost use Rattle.image_format.specs.Runs.{machine_observed};
ghost use Rattle.image_runs.specs.Observed.{observation_with};
ghost use Rattle.command_outcomes.specs.Outcomes.{outcome_of};
ghost use Rattle.command_outcomes.specs.RunLines.{image_stop_line};
ghost use Rattle.command_words.specs.Command.{RunImage};
ghost use Rattle.sat_tool.specs.Commands.{inputs_of};
ghost use Rattle.sat_tool.specs.Outcomes.{InAnyCase};
ghost use Rattle.sat_tool.specs.Reading.{Holds, Lacks};
ghost use Rattle.sat_tool.specs.Run.{Course};
ghost use Rattle.sat_tool.specs.RunImage.{IsNoImage};
ghost use Rattle.sat_tool.specs.RunResult.{IsResultOf};
ghost use Rattle.sat_tool.specs.World.{store_view};

use crate::files::read_file;
use crate::input::input_file;
use crate::run_result::{RunResult, write_result};
use command_outcomes::{Outcome, ended, faulted, image_refused, stopped_image};
use command_words::RunFiles;
use image_format::{Image, ImageRefusal, read_bytes};
use image_runs::{IMAGE_BYTES, run_image as run_of};
use rv_emulator::Pause;
use sat_base::Memory;
use std::alloc::{AllocError, Global};
use store_io::Store;

/// Runs the image in a file on the samples in another, for at most so many instructions, and writes its output.
pub fn run_image<S: Store>(
    alloc: Global,
    store: &mut S,
    files: RunFiles<'_>,
    steps: u64,
) -> Result<Outcome, Outcome>
    ensures course { InAnyCase result (Course (RunImage files.entry.program.now files.entry.input.now files.entry.output.now steps)
        (inputs_of (RunImage files.entry.program.now files.entry.input.now files.entry.output.now steps)) []
        (store_view (S.files store.old) (S.faults store.old)) (store_view (S.files store.new) (S.faults store.new))) }
    ensures later { S.faults store.old ≤ S.faults store.new }
{
    let image = image_file(alloc, store, files.program)?;
    let input = input_file(alloc, store, files.input)?;
    let ran = run(alloc, &image, &input, steps)?;
    write_result(alloc, store, files.output, ran)
}

// The image in a file; else the run is over, with this outcome.
fn image_file<S: Store>(alloc: Global, store: &mut S, name: &str) -> Result<Image, Outcome>
    ensures held { IfOk result (λ image. Holds (IsFileOf image) (S.files store.old) name.now) }
    ensures lacking { IfErr result (Lacks IsNoImage name.now
        (store_view (S.files store.old) (S.faults store.old)) (store_view (S.files store.new) (S.faults store.new))) }
    ensures same { S.files store.new ≡ S.files store.old }
    ensures later { S.faults store.old ≤ S.faults store.new }
{
    let bytes = read_file(alloc, store, name, IMAGE_BYTES)?;
    image_in(alloc, &bytes)
}

// The image in the bytes of its file; else the run is over, with this outcome.
fn image_in(alloc: Global, bytes: &[u8]) -> Result<Image, Outcome>
    ensures image { IfOk result (λ image. IsFileOf image bytes.now) }
    ensures stops { IfErr result (λ outcome. IsNoImage bytes.now outcome ⊎ (outcome ≡ Outcome.NoMemory)) }
{
    match read_bytes(alloc, bytes) {
        Ok(image) => Ok(image),
        Err(ImageRefusal::Memory) => Err(Outcome::NoMemory),
        Err(refusal) => Err(image_refused(alloc, refusal)?),
    }
}

// What comes of the image on these samples, after at most so many instructions.
fn run(alloc: Global, image: &Image, input: &[i16], steps: u64) -> Result<RunResult, Memory>
    ensures { IfOk result (IsResultOf (image_stop_line image.now.sites) (machine_observed image.now input.now steps)) }
{
    let emulated = run_of(alloc, image, input, steps)?;
    let outcome = told(alloc, image, emulated.pause)?;
    Ok(RunResult {
        output: emulated.output,
        outcome,
    })
}

// What a run of an image comes to, by how it paused.
fn told(alloc: Global, image: &Image, pause: Pause) -> Result<Outcome, AllocError>
    ensures { IfOk result (λ outcome. (output : List ℤ) → outcome ≡ outcome_of (image_stop_line image.now.sites) (observation_with pause output)) }
{
    match pause {
        Pause::Budget => Ok(Outcome::Going),
        Pause::Wrote(_) => Ok(Outcome::Going),
        Pause::Ended { overflow, count } => ended(alloc, overflow, count),
        Pause::Stopped { site } => stopped_image(alloc, image.sites.as_slice(), site),
        Pause::Fault { pc, kind } => faulted(alloc, pc, kind),
    }
}
