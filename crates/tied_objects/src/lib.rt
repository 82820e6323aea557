// The objects that are declared, with their dimensions and what they start with (C90, 6.5.7).
#![tactic(auto, using(crate::proofs::Filled::fillings))]

mod initial;
pub mod object;

pub use object::{declared_object, parameter_object};
