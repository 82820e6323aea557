// Texts, and what the lexer and the reader answer to them: each line of the standard input is a case, and each line of
// the standard output is its answer.
#![tactic(auto)]

mod case;
mod first;
mod places;
mod shape;
mod text;
mod tree;

use std::io;

fn main(rt: HostRuntime) -> io::Result<()> {
    for line in rt.lines(rt.alloc()) {
        let line = line?;
        let text = case::answer_to(rt.alloc(), line.as_str())?;
        println!(rt; "{text}")?;
    }
    Ok(())
}
