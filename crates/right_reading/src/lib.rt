// What it is to read tokens rightly: what the functions of the parser read at the front of the tokens, as functions on
// lists, and when such a function reads what the grammar spells.
#![tactic(auto)]

mod laws;
mod specifiers;

pub use laws::tokens_are_read;
pub use specifiers::{Qualifiers, Specifiers};
