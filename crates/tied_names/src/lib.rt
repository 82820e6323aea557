// What the names of a source are tied to: its objects and functions by their numbers, and the calls that are in
// scope everywhere (C90, 6.1.2.1); and what is noted in a tree, its sites above all.
#![tactic(auto, using(crate::proofs::InOrder::orders))]

pub mod facts;
pub mod note;
pub mod tie;
pub mod ties;
mod tokens;

pub use facts::Facts;
pub use note::Note;
pub use tie::{Asked, Tie, TiedObject, call_kind, callee_of, index_kind};
pub use ties::{Ties, is_view};
pub use tokens::Tokens;
