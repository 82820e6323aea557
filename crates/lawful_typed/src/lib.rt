// The source of each text that has no fault is lawful: laws alone, which put those of the crates below together.
#![tactic(auto)]

mod laws;

pub use laws::{integers_fit, numbers_fit, sites_are_few, typed_sources_are_lawful};
