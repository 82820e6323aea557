// Expressions, places, arguments and calls of a source whose names are tied, as the program does them. What calls
// functions of the source is handed in.
#![tactic(auto)]

pub mod expressions;
pub mod here;

pub use expressions::{argument, call, expression, located, site_at};
pub use here::Here;
