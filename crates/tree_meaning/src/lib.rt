// What a tree does: the meaning of its nodes, in the specifications, over the states of a source; and laws
// that it has.
#![tactic(auto)]

mod laws;

pub use laws::examples;
