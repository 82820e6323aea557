// Reads expressions, with places, calls and types: each function reads what a function on lists of tokens says.
#![tactic(auto)]

mod calls;
mod expressions;
mod measured;
mod places;
mod type_name;

pub use calls::{argument, arguments};
pub use expressions::expression;
pub use measured::Measured;
pub use places::{index, indices, indirection, place};
pub use type_name::type_;
