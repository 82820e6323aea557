// Reads the tokens of a source into its tree (ISO/IEC 9899:1990, clause 6, as far as the profile goes).
#![tactic(auto)]

mod laws;
mod program;

pub use c_grammar::{ReadRefusal, Symbol, depths_of_trees};
pub use laws::one_tree;
pub use program::read;
