// The words of the command line, read with clap.
#![tactic(auto)]

mod numbers;
mod table;
pub mod words;

pub use words::{Command, RunFiles, command_of};
