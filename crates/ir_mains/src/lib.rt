// The trees of lawful sources: their `main` and their relational constants; laws alone.
#![tactic(auto)]

mod laws;

pub use laws::{constants_stand, has_main, main_is_main};
