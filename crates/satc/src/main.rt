// The compiler as a command: `satc` and its words, on the files and the output of the system.
#![tactic(auto)]

use sat_tool::{gather, start};
use std::process::ExitCode;
use store_io::{FileStore, StdSink};

fn main(rt: HostRuntime) -> ExitCode {
    ExitCode::from(start(
        rt.alloc(),
        gather(&rt),
        &mut FileStore::new(&rt),
        &mut StdSink::new(&rt),
    ))
}
