// The code of expressions over scalars, without conditions, as functions on trees, and that it does what they do: a law
// alone.
#![tactic(auto)]

mod laws;

pub use laws::expressions_are_done;
