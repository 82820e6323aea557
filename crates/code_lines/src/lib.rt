// The words of emitted code and the sites that they enter; lines of code that set registers alone, and the short ones of
// which emitted code is made: laws alone.
#![tactic(auto)]

mod laws;
pub mod word;

pub use laws::{counts_are_added, lines_run, numbers_are_made, sites_are_entered};
pub use word::Word;
