// Statements and blocks whose names are tied to what they stand for (C90, 6.6), and the objects that they declare.
#![tactic(auto, using(crate::proofs::Statement_equations::statements))]

pub mod declarations;
pub mod statements;

pub use declarations::{declare_object, objects};
pub use statements::{Inside, block};
