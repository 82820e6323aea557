// The plain program that does what a source does: it walks the tree of a source whose names are tied.
#![tactic(auto)]

pub mod function;
pub mod runner;

pub use runner::{RunEnd, Runner, start};
