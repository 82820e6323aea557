// What a line asks for.

use crate::run::{run_of, start_of};
use crate::shown::{file_size, shown_file, unhexed};
use case_text::unescaped;
use std::alloc::{AllocError, Global};
use store_io::{Failing, MemStore, Store};

/// The answer to a line, whose parts stand between ` | `, one for each part that asks for one:
/// - `run WORD ..` runs the program on these words, where `''` is the empty word; `no text` and `no memory` run it where
///   the words cannot be gathered. The answer is the status and what was put.
/// - `show NAME` answers the bytes of a file, and `size NAME` how many they are.
/// - `file NAME TEXT` and `bytes NAME HEXADECIMAL` make a file, before all runs.
/// - `store CALL TAKEN` and `sink CALL TAKEN` say which call fails, and how many bytes it takes.
pub fn answer_to(alloc: Global, line: &str) -> Result<String, AllocError> {
    let mut store = store_of(alloc, line)?;
    let sink = failing_of(line, "sink", 0);
    let mut answer = String::new(alloc);
    for part in line.split(" | ") {
        let text = match part.split_once(' ') {
            Some(("run", words)) => run_of(alloc, words, &mut store, sink)?,
            Some(("no", why)) => start_of(alloc, why, &mut store)?,
            Some(("show", name)) => shown_file(alloc, name, store.file(name))?,
            Some(("size", name)) => file_size(alloc, name, store.file(name))?,
            _ => continue,
        };
        if !answer.is_empty() {
            answer.push_str(" | ")?;
        }
        answer.push_str(text.as_str())?;
    }
    Ok(answer)
}

/// A store with the files of the line, of which one call fails once they are made.
fn store_of(alloc: Global, line: &str) -> Result<MemStore, AllocError> {
    let mut made = 0u64;
    for part in line.split(" | ") {
        if part.starts_with("file ") || part.starts_with("bytes ") {
            made = made.saturating_add(1);
        }
    }
    let Ok(mut store) = MemStore::new(alloc, &[], &[failing_of(line, "store", made)]) else {
        return Err(AllocError);
    };
    for part in line.split(" | ") {
        make_file(alloc, &mut store, part)?;
    }
    Ok(store)
}

/// Makes the file that the part asks for, if it asks for one.
fn make_file(alloc: Global, store: &mut MemStore, part: &str) -> Result<(), AllocError> {
    let Some((kind, rest)) = part.split_once(' ') else {
        return Ok(());
    };
    let (name, text) = rest.split_once(' ').unwrap_or((rest, ""));
    let bytes = match kind {
        "file" => unescaped(alloc, text)?,
        "bytes" => unhexed(alloc, text)?,
        _ => return Ok(()),
    };
    match store.write(alloc, name, &bytes) {
        Ok(()) => Ok(()),
        Err(_) => Err(AllocError),
    }
}

/// The call of the store or the sink that fails, counted from this number; one that is never made where the line names
/// none.
fn failing_of(line: &str, of: &str, from: u64) -> Failing {
    let mut failing = Failing {
        call: u64::MAX,
        taken: 0,
    };
    for part in line.split(" | ") {
        let mut words = part.split_whitespace();
        if words.next() == Some(of) {
            failing = Failing {
                call: number_of(words.next()).saturating_add(from),
                taken: number_of(words.next()),
            };
        }
    }
    failing
}

fn number_of(word: Option<&str>) -> u64 {
    match word {
        Some(digits) => digits.parse::<u64>().unwrap_or(0),
        None => 0,
    }
}
