// A source whose names are tied to what they stand for, or the fault that is told of it (ISO/IEC 9899:1990, 6.1.2.1
// and 6.3 to 6.7). Of definitions specs/Tied.antt has what a tied source is.
#![tactic(auto, using(crate::proofs::Source_equations::sources))]

mod constants;
pub mod items;
mod laws;
mod tying;

pub use laws::{numbers_are_places, one_typed};
pub use tying::typed;
