// The words of sites, and what they do: each line of the standard input is a case, and each line of the standard output is
// what came of it.
#![tactic(auto)]

mod case;
mod run;
mod spelled;
mod value;

use std::io;

fn main(rt: HostRuntime) -> io::Result<()> {
    for line in rt.lines(rt.alloc()) {
        let line = line?;
        let text = case::answer_to(rt.alloc(), line.as_str())?;
        println!(rt; "{text}")?;
    }
    Ok(())
}
