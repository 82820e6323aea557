// The words that the system hands to the program.

ghost use Rattle.std.specs.Prelude.{map, string_bytes, MatchResult};
ghost use Rattle.sat_tool.specs.Gathered.{IsRunWithout};
ghost use Rattle.sat_tool.specs.Run.{IsRun};
ghost use Rattle.sat_tool.specs.World.{world};

use crate::top_call::satc;
use std::alloc::Global;
use std::env;
use std::io::{self, ErrorKind};
use std::rt::Env;
use store_io::{Sink, Store};

/// The status where not even the words can be gathered for want of memory.
const NO_MEMORY: u8 = 3;

/// Why the words could not be gathered.
#[derive(Clone, Copy, Debug, PartialEq, Eq)]
pub enum NoWords {
    /// Some word is no text.
    NoText,
    /// Want of memory.
    Memory,
}

/// The words after the program's name.
pub fn gather<R: Env + AllocGlobal>(rt: &R) -> Result<Vec<String>, NoWords> {
    match arguments(rt) {
        Ok(words) => Ok(words),
        Err(error) if error.kind() == ErrorKind::OutOfMemory => Err(NoWords::Memory),
        Err(_) => Err(NoWords::NoText),
    }
}

fn arguments<R: Env + AllocGlobal>(rt: &R) -> io::Result<Vec<String>> {
    let mut args = env::args(rt)?;
    args.next();
    Ok(args.collect(rt.alloc())?)
}

/// Runs the program on the words that were gathered. Words that are no text are no command; where memory wanted for
/// them the status is 3, and nothing is done or printed.
pub fn start<S: Store, K: Sink>(
    alloc: Global,
    words: Result<Vec<String>, NoWords>,
    store: &mut S,
    out: &mut K,
) -> u8
    ensures { let old = world (S.files store.old) (S.faults store.old) (K.written out.old) (K.faults out.old) in
        let new = world (S.files store.new) (S.faults store.new) (K.written out.new) (K.faults out.new) in
        MatchResult words (λ given. IsRun (map string_bytes given.items) old new result) (λ why. IsRunWithout why old new result) }
{
    match words {
        Ok(words) => satc(alloc, &words, store, out),
        Err(NoWords::NoText) => satc(alloc, &[], store, out),
        Err(NoWords::Memory) => NO_MEMORY,
    }
}
