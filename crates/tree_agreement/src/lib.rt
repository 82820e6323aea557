// The tree of a source does what the source does: laws alone.
#![tactic(auto)]

mod laws;

pub use laws::parts_agree;
