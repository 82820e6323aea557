// The code of conditions over scalars, which branches, and the law that it leads where the condition does.
#![tactic(auto)]

pub mod comparison;
mod laws;

pub use comparison::Comparison;
pub use laws::conditions_are_done;
