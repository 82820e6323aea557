// The cuts of a tree: where ranges are stated, and of which variables.
#![tactic(auto, using(crate::proofs::Trees::walking))]

pub mod functions;
pub mod loops;
pub mod scope;

pub use functions::cuts;
pub use scope::is_tracked;
