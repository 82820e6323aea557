// Code that does what a run of a source does, part by part: the frame of each proof about emitted code. One law, and
// the lemmas by which parts are put together (proofs/Parts.antt).
#![tactic(auto)]

mod laws;

pub use laws::runs_are_alike;
