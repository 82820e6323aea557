// The code of a program has no more words than its tree may cost: a law alone.
#![tactic(auto)]

mod laws;

pub use laws::programs_are_short;
