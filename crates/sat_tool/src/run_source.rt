// `run-source SRC IN OUT TURNS`: a source by its own meaning.

ghost use Rattle.std.specs.Prelude.{◌≡◌, ◌≤◌, ◌⊎◌, ℤ, List, [], IfOk, IfErr};
ghost use Rattle.typed_meaning.specs.Observed.{observed};
ghost use Rattle.source_meaning.specs.Running.{observation_with};
ghost use Rattle.sat_compile.specs.Accepted.{IsSource};
ghost use Rattle.command_outcomes.specs.Outcomes.{outcome_of};
ghost use Rattle.command_outcomes.specs.RunLines.{source_stop_line};
ghost use Rattle.command_words.specs.Command.{RunSource};
ghost use Rattle.sat_tool.specs.Commands.{inputs_of};
ghost use Rattle.sat_tool.specs.Outcomes.{InAnyCase};
ghost use Rattle.sat_tool.specs.Reading.{Holds, Lacks};
ghost use Rattle.sat_tool.specs.Run.{Course};
ghost use Rattle.sat_tool.specs.RunResult.{IsResultOf};
ghost use Rattle.sat_tool.specs.RunSource.{IsNotRun};
ghost use Rattle.sat_tool.specs.World.{store_view};

use crate::files::read_file;
use crate::input::input_file;
use crate::run_result::{RunResult, write_result};
use c_typed::Typed;
use command_outcomes::{Outcome, ended, refusal_line, stopped_source};
use command_words::RunFiles;
use sat_base::Memory;
use sat_base::limits::SOURCE_BYTES;
use sat_compile::{CompileRefusal, Front, front};
use source_meaning::{RunEnd, start};
use std::alloc::{AllocError, Global};
use store_io::Store;

/// Runs the source in a file on the samples in another, where each activation of a loop may begin so many turns, and
/// writes its output.
pub fn run_source<S: Store>(
    alloc: Global,
    store: &mut S,
    files: RunFiles<'_>,
    turns: u32,
) -> Result<Outcome, Outcome>
    ensures course { InAnyCase result (Course (RunSource files.entry.program.now files.entry.input.now files.entry.output.now turns)
        (inputs_of (RunSource files.entry.program.now files.entry.input.now files.entry.output.now turns)) []
        (store_view (S.files store.old) (S.faults store.old)) (store_view (S.files store.new) (S.faults store.new))) }
    ensures later { S.faults store.old ≤ S.faults store.new }
{
    let source = source_file(alloc, store, files.program)?;
    let input = input_file(alloc, store, files.input)?;
    let ran = run(alloc, &source.typed, &input, turns)?;
    write_result(alloc, store, files.output, ran)
}

// The source in a file; else the run is over, with this outcome.
fn source_file<S: Store>(alloc: Global, store: &mut S, name: &str) -> Result<Front, Outcome>
    ensures held { IfOk result (λ front. Holds (λ text. IsSource text front.typed front.order.functions) (S.files store.old) name.now) }
    ensures lacking { IfErr result (Lacks IsNotRun name.now
        (store_view (S.files store.old) (S.faults store.old)) (store_view (S.files store.new) (S.faults store.new))) }
    ensures same { S.files store.new ≡ S.files store.old }
    ensures later { S.faults store.old ≤ S.faults store.new }
{
    let text = read_file(alloc, store, name, SOURCE_BYTES)?;
    source_in(alloc, &text)
}

// The source in a text; else the run is over, with this outcome.
fn source_in(alloc: Global, text: &[u8]) -> Result<Front, Outcome>
    ensures source { IfOk result (λ front. IsSource text.now front.typed front.order.functions) }
    ensures stops { IfErr result (λ outcome. IsNotRun text.now outcome ⊎ (outcome ≡ Outcome.NoMemory)) }
{
    match front(alloc, text) {
        Ok(front) => Ok(front),
        Err(CompileRefusal::Memory) => Err(Outcome::NoMemory),
        Err(refusal) => Err(Outcome::Refused(refusal_line(alloc, &refusal)?)),
    }
}

// What comes of the source on these samples, at so many turns.
fn run(alloc: Global, typed: &Typed, input: &[i16], turns: u32) -> Result<RunResult, Memory>
    ensures { IfOk result (IsResultOf (source_stop_line typed.now.sites) (observed typed.now input.now turns)) }
{
    let mut runner = start(alloc, typed, input)?;
    let end = runner.run(alloc, turns)?;
    let outcome = told(alloc, typed, end)?;
    let output = Vec::from_slice(alloc, runner.output())?;
    Ok(RunResult { output, outcome })
}

// What a run of a source comes to, by how it ended.
fn told(alloc: Global, typed: &Typed, end: RunEnd) -> Result<Outcome, AllocError>
    ensures { IfOk result (λ outcome. (output : List ℤ) → outcome ≡ outcome_of (source_stop_line typed.now.sites) (observation_with end output)) }
{
    match end {
        RunEnd::Ended { overflow, count } => ended(alloc, overflow, count),
        RunEnd::Stopped { site } => stopped_source(alloc, typed.sites.as_slice(), site),
        RunEnd::Going => Ok(Outcome::Going),
    }
}
