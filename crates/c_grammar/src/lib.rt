// The grammar of the profile (ISO/IEC 9899:1990, clause 6): what tokens are to it, which trees they spell, and why
// tokens are refused.
#![tactic(auto)]

mod laws;
mod refusal;
mod spot;
mod symbol;

pub use laws::{depths_of_trees, fronts_go_on};
pub use refusal::ReadRefusal;
pub use spot::{Spot, spots};
pub use symbol::{
    Symbol, assign_mark, begins_expression, begins_objects, begins_statement, begins_type,
    binary_mark, rank_of, step_of, symbol_of, unary_mark, width_of,
};
