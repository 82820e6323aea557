// The code of statements over scalars, and the law that it does what the statements do.
#![tactic(auto)]

pub mod exits;
mod laws;

pub use exits::Exits;
pub use laws::statements_are_done;
