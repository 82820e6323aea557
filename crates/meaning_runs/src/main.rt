// Runs of sources: each line of the standard input is a case, and each line of the standard output what was observed
// of its runs. A case has the numbers of turns, the samples, and the source, with ` | ` between them; `\n` stands
// for a line feed.
#![tactic(auto)]

mod case;
mod runs;

use std::io;
use std::io::{BufRead, BufReader};

fn main(rt: HostRuntime) -> io::Result<()> {
    let alloc = rt.alloc();
    for line in BufReader::new(alloc, rt.reader())?.lines(alloc) {
        let answer = runs::answer_to(alloc, line?.as_str())?;
        println!(rt; "{answer}")?;
    }
    Ok(())
}
