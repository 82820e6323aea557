// Lawful trees: laws alone, for the lines that say how functions end, how their loops are numbered, and that their calls
// end.
#![tactic(auto)]

mod laws;

pub use laws::{calls_end, functions_return, loops_are_numbered};
