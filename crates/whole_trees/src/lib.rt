// The tree of a whole source, function by function, in the order of the definitions.
#![tactic(auto, using(crate::proofs::Trees::building))]

pub mod function_trees;
pub mod numbers;
pub mod renumbering;

pub use function_trees::functions;
pub use numbers::{defined, main_in, numbers_of};
pub use renumbering::objects;
