// The pieces of which emitted code is made, and the short runs of them that numbers, counts, words of the data memory,
// jumps and sites are.
#![tactic(auto, using(crate::proofs::Growing::extends_then, crate::proofs::Growing::on_extends_then))]

pub mod code;
pub mod jumps;
mod memory;
pub mod numbers;
pub mod piece;
pub mod sites;

pub use code::Code;
pub use piece::{Entry, Piece};
