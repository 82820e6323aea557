// Sources, and what comes of tying their names: each line of the standard input is a source, in which a tab begins a
// new line, and each line of the standard output is the tied source, or the place of its fault and the words for it.
#![tactic(auto)]

mod expressions;
mod objects;
mod statements;

use c_lexer::tokens;
use c_reader::read;
use c_types::typed;
use sat_base::fault_text;
use sat_base::limits::SOURCE_BYTES;
use std::alloc::{AllocError, Global};
use std::io;
use std::io::{BufRead, BufReader};
use written_text::{nothing_written, whole_text};

fn answer_to(alloc: Global, text: &[u8]) -> Result<String, AllocError> {
    if text.len() > SOURCE_BYTES {
        return String::from_str(alloc, "source too long");
    }
    let Ok(list) = tokens(alloc, text) else {
        return String::from_str(alloc, "no tokens");
    };
    let Ok(program) = read(alloc, &list) else {
        return String::from_str(alloc, "no program");
    };
    match typed(alloc, &program) {
        Ok(whole) => {
            let mut out = nothing_written(alloc);
            objects::source(&mut out, &whole);
            whole_text(out)
        },
        Err(fault) => {
            let line = fault.pos.line;
            let col = fault.pos.col;
            let words = fault_text(fault.kind);
            format!(in alloc; "{line}:{col} {words}")
        },
    }
}

fn main(rt: HostRuntime) -> io::Result<()> {
    let alloc = rt.alloc();
    for line in BufReader::new(alloc, rt.reader())?.lines(alloc) {
        let line = line?;
        let mut text = Vec::new(alloc);
        for byte in line.as_bytes() {
            text.push(if *byte == b'\t' { b'\n' } else { *byte })?;
        }
        let answer = answer_to(alloc, text.as_slice())?;
        println!(rt; "{answer}")?;
    }
    Ok(())
}
