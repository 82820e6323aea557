// Runs of the program.

use crate::shown::shown_text;
use sat_tool::{NoWords, satc, start};
use std::alloc::{AllocError, Global};
use store_io::{Failing, MemSink, MemStore};

/// The status of a run on these words, and what it put to a sink of which this call fails.
pub fn run_of(
    alloc: Global,
    words: &str,
    store: &mut MemStore,
    failing: Failing,
) -> Result<String, AllocError> {
    let mut given = Vec::new(alloc);
    for word in words.split_whitespace() {
        let word = if word == "''" { "" } else { word };
        given.push(String::from_str(alloc, word)?)?;
    }
    let mut out = sink_of(alloc, failing)?;
    let status = satc(alloc, &given, store, &mut out);
    shown_text(alloc, status, out.bytes())
}

/// The same of a run whose words could not be gathered.
pub fn start_of(alloc: Global, why: &str, store: &mut MemStore) -> Result<String, AllocError> {
    let why = if why == "memory" {
        NoWords::Memory
    } else {
        NoWords::NoText
    };
    let never = Failing {
        call: u64::MAX,
        taken: 0,
    };
    let mut out = sink_of(alloc, never)?;
    let status = start(alloc, Err(why), store, &mut out);
    shown_text(alloc, status, out.bytes())
}

fn sink_of(alloc: Global, failing: Failing) -> Result<MemSink, AllocError> {
    match MemSink::new(alloc, &[failing]) {
        Ok(out) => Ok(out),
        Err(_) => Err(AllocError),
    }
}
