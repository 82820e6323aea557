// What the own words of emitted code do with Overflow, and how often they compare: laws alone.
#![tactic(auto)]

mod laws;

pub use laws::{comparisons_are_few, overflow_is_kept};
