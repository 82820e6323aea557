// Jumps and branches by distances in words, and the laws of what they do.
#![tactic(auto)]

pub mod branch;
mod laws;

pub use branch::{Reach, Test};
pub use laws::{branches_are_done, jumps_are_done};
