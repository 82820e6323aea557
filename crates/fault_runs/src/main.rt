// Sources, and the fault that is told of each: each line of the standard input is a source, and each line of
// the standard output is the column of its fault and the words for it, or says that it has none.
#![tactic(auto)]

use c_faults::first_fault;
use c_lexer::tokens;
use c_reader::read;
use sat_base::limits::SOURCE_BYTES;
use sat_base::{Fault, fault_text};
use std::alloc::Global;
use std::io;
use std::io::{BufRead, BufReader};

fn told(fault: Option<Fault>) -> (u32, &'static str) {
    match fault {
        Some(fault) => (fault.pos.col, fault_text(fault.kind)),
        None => (0, "none"),
    }
}

fn answer_to(alloc: Global, text: &[u8]) -> (u32, &'static str) {
    if text.len() > SOURCE_BYTES {
        return (0, "source too long");
    }
    let Ok(list) = tokens(alloc, text) else {
        return (0, "no tokens");
    };
    let Ok(program) = read(alloc, &list) else {
        return (0, "no program");
    };
    match first_fault(alloc, &program) {
        Ok(fault) => told(fault),
        Err(_) => (0, "out of memory"),
    }
}

fn main(rt: HostRuntime) -> io::Result<()> {
    let alloc = rt.alloc();
    for line in BufReader::new(alloc, rt.reader())?.lines(alloc) {
        let (col, words) = answer_to(alloc, line?.as_bytes());
        println!(rt; "{col} {words}")?;
    }
    Ok(())
}
