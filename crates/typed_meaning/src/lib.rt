// What a source does: the meaning of the whole language, in the specifications, over the types of a source
// whose names are tied; and laws that it has.
#![tactic(auto)]

mod laws;

pub use laws::examples;
