// That a lawful source has a tree: laws alone.
#![tactic(auto)]

mod laws;

pub use laws::{lawful_objects_are_short, lawful_sources_have_trees};
