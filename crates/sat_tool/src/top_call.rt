// The top call: words in, a status out.

ghost use Rattle.std.specs.Prelude.{◌≤◌, [], map, string_bytes};
ghost use Rattle.sat_tool.specs.Headline.{BuildsAccepted, RefusesOthers};
ghost use Rattle.sat_tool.specs.RunHeadline.{RunsImages, RunsSources, RefusesToRunOthers};
ghost use Rattle.sat_tool.specs.Outcomes.{InAnyCase};
ghost use Rattle.sat_tool.specs.Run.{Course, Comes, Tells, IsRun};
ghost use Rattle.sat_tool.specs.Commands.{inputs_of};
ghost use Rattle.command_words.specs.Words.{asked_by};
ghost use Rattle.sat_tool.specs.World.{store_view, sink_view, world};

use crate::build::build;
use crate::run_image::run_image;
use crate::run_source::run_source;
use command_outcomes::Outcome;
use command_words::{Command, command_of};
use sat_base::Memory;
use std::alloc::Global;
use store_io::{PutFail, Sink, Store};

/// The status where a put failed, whatever the run came to.
const SINK_FAILED: u8 = 9;

/// Does what the words ask for, puts its text to the sink, if it has one, and answers the exit status: 0 done, 1 the
/// source is not accepted, 2 the words are no command, 3 want of memory, 4 a file could not be used, 5 the run
/// stopped, 6 it goes on at its number, 7 a file is not what the command asks for, 8 the machine faulted, 9 the sink failed. Until the one write nothing has changed in the store.
pub fn satc<S: Store, K: Sink>(alloc: Global, words: &[String], store: &mut S, out: &mut K) -> u8
    // Whatever the store and the sink do, each status has its cause, and each text is that of its outcome.
    ensures run { IsRun (map string_bytes words.now)
        (world (S.files store.old) (S.faults store.old) (K.written out.old) (K.faults out.old))
        (world (S.files store.new) (S.faults store.new) (K.written out.new) (K.faults out.new)) result }

    // Where they tell what they hold and count no fault, an accepted source is built, and any other refused.
    ensures built { BuildsAccepted (map string_bytes words.now)
        (world (S.files store.old) (S.faults store.old) (K.written out.old) (K.faults out.old))
        (world (S.files store.new) (S.faults store.new) (K.written out.new) (K.faults out.new)) result }
    ensures refused { RefusesOthers (map string_bytes words.now)
        (world (S.files store.old) (S.faults store.old) (K.written out.old) (K.faults out.old))
        (world (S.files store.new) (S.faults store.new) (K.written out.new) (K.faults out.new)) result }

    // And an image that can be read is run on samples that can be: output, status and line are those that are observed.
    ensures ran { RunsImages (map string_bytes words.now)
        (world (S.files store.old) (S.faults store.old) (K.written out.old) (K.faults out.old))
        (world (S.files store.new) (S.faults store.new) (K.written out.new) (K.faults out.new)) result }

    // And so is a source, by what its text means; any other text is refused.
    ensures ran_source { RunsSources (map string_bytes words.now)
        (world (S.files store.old) (S.faults store.old) (K.written out.old) (K.faults out.old))
        (world (S.files store.new) (S.faults store.new) (K.written out.new) (K.faults out.new)) result }
    ensures not_run { RefusesToRunOthers (map string_bytes words.now)
        (world (S.files store.old) (S.faults store.old) (K.written out.old) (K.faults out.old))
        (world (S.files store.new) (S.faults store.new) (K.written out.new) (K.faults out.new)) result }
{
    let outcome = outcome_of(alloc, words, store);
    tell(alloc, &outcome, out)
}

// What the words come to.
fn outcome_of<S: Store>(alloc: Global, words: &[String], store: &mut S) -> Outcome
    ensures comes { Comes (map string_bytes words.now)
        (store_view (S.files store.old) (S.faults store.old)) (store_view (S.files store.new) (S.faults store.new)) result }
    ensures later { S.faults store.old ≤ S.faults store.new }
{
    let command = match command_of(alloc, words) {
        Ok(Some(command)) => command,
        Ok(None) => return Outcome::NoCommand,
        Err(Memory) => return Outcome::NoMemory,
    };
    match serve(alloc, store, command) {
        Ok(outcome) => outcome,
        Err(outcome) => outcome,
    }
}

// Does what a command asks for.
fn serve<S: Store>(alloc: Global, store: &mut S, command: Command<'_>) -> Result<Outcome, Outcome>
    ensures course { InAnyCase result (Course (asked_by command.entry) (inputs_of (asked_by command.entry)) []
        (store_view (S.files store.old) (S.faults store.old)) (store_view (S.files store.new) (S.faults store.new))) }
    ensures later { S.faults store.old ≤ S.faults store.new }
{
    match command {
        Command::Build { source, image } => build(alloc, store, source, image),
        Command::RunImage { files, steps } => run_image(alloc, store, files, steps),
        Command::RunSource { files, turns } => run_source(alloc, store, files, turns),
    }
}

// Puts the text of an outcome, if it has one, and answers the status.
fn tell<K: Sink>(alloc: Global, outcome: &Outcome, out: &mut K) -> u8
    ensures told { Tells outcome.now (sink_view (K.written out.old) (K.faults out.old)) (sink_view (K.written out.new) (K.faults out.new)) result }
    ensures later { K.faults out.old ≤ K.faults out.new }
{
    let Some(text) = outcome.text() else {
        return outcome.status();
    };
    match out.put(alloc, text) {
        Ok(()) => outcome.status(),
        Err(PutFail::Failed) => SINK_FAILED,
        Err(PutFail::Memory) => Outcome::NoMemory.status(),
    }
}
