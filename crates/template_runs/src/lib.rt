// What instructions do that are written over the registers of a template, over the registers of any site: the machine
// runs as their course does, which computes.
#![tactic(auto)]

pub mod laws;
pub mod registers;

pub use registers::Registers;
