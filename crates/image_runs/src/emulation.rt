// A run of an image.

ghost use Rattle.std.specs.Prelude.{◌≡◌, ◌↔◌, ◌++◌, IsTrue, IfOk, OnOk};
ghost use Rattle.image_format.specs.Runs.{machine_observed};
ghost use Rattle.image_runs.specs.Observed.{observation_with, TellsSample};
ghost use Rattle.rv_emulator.specs.Pauses.{samples_of};

use image_format::Image;
use rv_emulator::{Machine, Pause};
use sat_base::Memory;
use std::alloc::Global;

/// What a run of an image wrote, and how it paused once its instructions were used up or it was over.
#[derive(Debug, Drop)]
pub struct ImageRun {
    pub output: Vec<i16>,
    pub pause: Pause,
}

/// Runs an image on an input for at most so many instructions.
pub fn run_image(
    alloc: Global,
    image: &Image,
    input: &[i16],
    steps: u64,
) -> Result<ImageRun, Memory>
    ensures { IfOk result (λ run. machine_observed image.now input.now steps ≡ observation_with run.pause run.output.items) }
{
    let mut machine = Machine::load(alloc, image, input)?;
    let mut left = steps;
    let mut output = Vec::new(alloc);
    'pauses: loop {
        let pause = machine.run(&mut left);
        if !keep(&mut output, pause)? {
            return Ok(ImageRun { output, pause });
        }
    }
}

/// Adds the sample that a pause tells to the output, and answers whether it tells one.
fn keep(output: &mut Vec<i16>, pause: Pause) -> Result<bool, Memory>
    ensures kept { OnOk result (output.new.items ≡ output.old.items ++ samples_of pause) }
    ensures writes { IfOk result (λ tells. IsTrue tells ↔ TellsSample pause) }
{
    match pause {
        Pause::Wrote(sample) => {
            output.push(sample)?;
            Ok(true)
        }
        _ => Ok(false),
    }
}
