// Of which pieces emitted code is made, and which sites have their words in it: laws alone.
#![tactic(auto)]

mod laws;

pub use laws::{codes_are_made, sites_are_made};
