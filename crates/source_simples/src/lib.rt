// Assignments, steps, calls as statements and the starts of objects, as the program does them. What calls functions
// of the source is handed in.
#![tactic(auto)]

pub mod simples;

pub use simples::{all_simples, simple, starts};
