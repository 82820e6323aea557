// How much code the tree of a whole source may become: laws alone.
#![tactic(auto)]

mod laws;

pub use laws::{tokens_cover_trees, whole_trees_cost_no_more};
