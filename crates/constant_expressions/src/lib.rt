// What can be read off an expression or a statement alone: the value of a constant expression, and
// whether a body surely returns.
#![tactic(auto)]

mod folding;
mod returning;

pub use folding::folded;
pub use returning::surely_returns;
