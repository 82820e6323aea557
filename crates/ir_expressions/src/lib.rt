// The trees of expressions, places, arguments and calls, made in the arena.
#![tactic(auto, using(crate::proofs::Trees::building))]

pub mod build;
pub mod calls;
pub mod expressions;
pub mod marks;
pub mod targets;

pub use build::Build;
pub use expressions::site_at;
