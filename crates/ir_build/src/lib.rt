// From a source whose names are tied to its tree in the arena.
#![tactic(auto)]

pub mod whole;

pub use whole::build;
