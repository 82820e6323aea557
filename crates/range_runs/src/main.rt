// Ranges, and what the operators, plain arithmetic, bits and relations make of them: each line of the standard input is a
// case, and each line of the standard output is what came of it.
#![tactic(auto)]

mod case;
mod fitting;
mod operator;
mod pair;
mod spelled;

use std::io;

fn main(rt: HostRuntime) -> io::Result<()> {
    for line in rt.lines(rt.alloc()) {
        let line = line?;
        let text = case::answer_to(rt.alloc(), line.as_str())?;
        println!(rt; "{text}")?;
    }
    Ok(())
}
