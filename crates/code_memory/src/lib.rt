// Loads and stores of words of the data memory by their offsets: laws alone.
#![tactic(auto)]

mod laws;

pub use laws::{loads_are_done, stores_are_done, words_are_kept};
