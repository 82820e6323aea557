// The names that are in scope: file scope, a function's parameters with its outermost block, and inner
// blocks (C90, 6.1.2.1).
#![tactic(auto)]

mod place;
pub mod scopes;

pub use scopes::{Declared, Scopes};
