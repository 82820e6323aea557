// The first form of sources: a `main` that writes the values of expressions of `add` and `sub`. It is the part of
// the language that is compiled so far.
#![tactic(auto)]

pub mod first;
mod form;
mod laws;

pub use first::{First, FirstExpr};
pub use form::first_of;
pub use laws::{at_most_one, operands, shallow};
