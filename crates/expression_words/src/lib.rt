// The code of expressions over scalars, as it is appended piece after piece.
#![tactic(auto, using(crate::proofs::Trees::emitting))]

pub mod emission;
pub mod expression;
pub mod forms;
mod lines;

pub use emission::Emission;
pub use forms::{fits_sixteen, sum, weight_of};
