// The tree of a statement does what the statement does: laws alone.
#![tactic(auto)]

mod laws;

pub use laws::statements_agree;
