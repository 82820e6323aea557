// Which functions may be called by a body that has a tree: a law alone.
#![tactic(auto)]

mod laws;

pub use laws::bodies_keep_fitting;
