// The sites of a source are the marks that stand in it: laws alone, one for each line of what is lawful about sites.
#![tactic(auto)]

mod laws;

pub use laws::{kinds_agree, marks_are_numbered, sites_stand_once};
