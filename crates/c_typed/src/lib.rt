// A source whose names are tied to what they stand for: plain data. Objects and functions go by their
// numbers, each implied conversion is written out, and each site has its number.
#![tactic(auto)]

pub mod call;
pub mod expression;
pub mod place;
pub mod simple;
pub mod statement;
pub mod typed;

pub use call::{Callee, TypedArg, TypedCall};
pub use expression::{TypedExpr, TypedExprKind};
pub use place::TypedPlace;
pub use simple::TypedSimple;
pub use statement::{Start, TypedBlock, TypedStmt};
pub use typed::{Typed, TypedFunction};
