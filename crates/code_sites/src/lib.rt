// The sites that stand in the bodies of a lawful tree: laws alone.
#![tactic(auto)]

mod laws;

pub use laws::{bodies_have_operands, bodies_have_rows, bodies_have_sites, sites_are_numbered};
