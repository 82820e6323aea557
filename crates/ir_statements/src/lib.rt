// The trees of assignments, steps, blocks and statements, made in the arena.
#![tactic(auto, using(crate::proofs::Trees::building))]

pub mod blocks;
pub mod loops;
pub mod numbered;
pub mod simples;
pub mod statements;

pub use numbered::Numbered;
pub use statements::{block, statement};
