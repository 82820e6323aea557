// Expressions, places, arguments and calls whose names are tied to what they stand for (C90, 6.3): each implied
// conversion is written out, each site has its number, and what stands in them is noted.
#![tactic(auto, using(crate::proofs::Tied_equations::ties))]

pub mod expressions;
mod sites;

pub use expressions::{argument, call, expression, place};
pub use sites::{site_if, with_conversion};
