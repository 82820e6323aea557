// What is observed of the runs of a case.

use crate::case::{Case, case_on};
use c_lexer::tokens;
use c_reader::read;
use c_typed::Typed;
use c_types::typed;
use sat_base::fault_text;
use sat_base::limits::SOURCE_BYTES;
use source_meaning::{RunEnd, start};
use std::alloc::{AllocError, Global};

/// What is observed of each run of the case on a line; or why there is none.
pub fn answer_to(alloc: Global, line: &str) -> Result<String, AllocError> {
    match case_on(alloc, line)? {
        Some(case) => answer_of(alloc, &case),
        None => String::from_str(alloc, "no case"),
    }
}

fn answer_of(alloc: Global, case: &Case) -> Result<String, AllocError> {
    let source = case.source.as_slice();
    if source.len() > SOURCE_BYTES {
        return String::from_str(alloc, "source too long");
    }
    let Ok(list) = tokens(alloc, source) else {
        return String::from_str(alloc, "no tokens");
    };
    let Ok(program) = read(alloc, &list) else {
        return String::from_str(alloc, "no program");
    };
    match typed(alloc, &program) {
        Ok(tied) => runs(alloc, &tied, case),
        Err(fault) => String::from_str(alloc, fault_text(fault.kind)),
    }
}

/// The number of turns of each run, how it ends, and its output.
fn runs(alloc: Global, tied: &Typed, case: &Case) -> Result<String, AllocError> {
    let mut text = String::new(alloc);
    let Ok(mut runner) = start(alloc, tied, case.input.as_slice()) else {
        return String::from_str(alloc, "out of memory");
    };
    for turns in case.turns.as_slice() {
        let Ok(end) = runner.run(alloc, *turns) else {
            return String::from_str(alloc, "out of memory");
        };
        let ended = shown(alloc, tied, end)?;
        if !text.is_empty() {
            text.push_str("; ")?;
        }
        text.push_str(format!(in alloc; "{turns} {ended}:")?.as_str())?;
        for sample in runner.output() {
            text.push_str(format!(in alloc; " {sample}")?.as_str())?;
        }
    }
    Ok(text)
}

/// How a run ends.
fn shown(alloc: Global, tied: &Typed, end: RunEnd) -> Result<String, AllocError> {
    match end {
        RunEnd::Ended { overflow, count } => format!(in alloc; "end {overflow} {count}"),
        RunEnd::Stopped { site } => match tied.sites.get(site as usize) {
            Some(place) => {
                let (line, col) = (place.pos.line, place.pos.col);
                format!(in alloc; "stop {site} {line}:{col}")
            }
            None => format!(in alloc; "stop {site}"),
        },
        RunEnd::Going => String::from_str(alloc, "going"),
    }
}
