// The tree of a whole source does what the source does: a law alone.
#![tactic(auto)]

mod laws;

pub use laws::sources_agree;
