// Lawful trees: laws alone, for the lines that compare what stands in the definitions of a tree, in the order of their
// tokens, with what stands in the functions of its source, in the order in which they are first named.
#![tactic(auto)]

mod laws;

pub use laws::{exposed_are_given, functions_are_few, sites_stand_once, statements_are_few};
