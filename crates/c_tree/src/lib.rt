// The tree of a source: plain data, in the shapes of the grammar (ISO/IEC 9899:1990, clause 6, as far as
// the profile goes). Every node carries the number and the place of its first token and of each of its own
// tokens that a site, a fault or a reader names.
#![tactic(auto)]

pub mod call;
pub mod declaration;
pub mod expression;
pub mod function;
pub mod place;
pub mod program;
pub mod simple;
pub mod statement;

pub use call::{Arg, Call};
pub use declaration::{Decl, Dim, Init, Objects, Row};
pub use expression::{BinaryMark, Expr, ExprKind, UnaryMark};
pub use function::{Function, Param};
pub use place::Place;
pub use program::{Item, Program};
pub use simple::{AssignMark, Simple};
pub use statement::{Block, Stmt};
