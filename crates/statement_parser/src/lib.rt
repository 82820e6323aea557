// Reads blocks and statements (C90, 6.6): each function reads what a function on lists of tokens says.
#![tactic(auto)]

mod simples;
mod statements;

pub use statements::block;
