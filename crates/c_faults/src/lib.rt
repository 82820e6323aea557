// The faults and limits of a source: which of all that are there is told first.
#![tactic(auto)]

mod calls;
mod declarations;
mod first;
mod laws;
pub mod limits;
mod places;
pub mod shape;
mod told;

pub use first::first_fault;
pub use laws::first_is_least;
