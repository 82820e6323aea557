// Statements and blocks of a source whose names are tied, as the program does them. What calls functions of the
// source is handed in.
#![tactic(auto)]

pub mod statements;

pub use statements::{block, statement};
