// Which functions of the source a function calls.
#![tactic(auto, using(crate::proofs::Equations::expressions, crate::proofs::Equations::statements))]

mod called;
pub mod function;
mod statement;

pub use function::functions_called_in;
