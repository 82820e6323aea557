// The order of the functions of a source, callers first, or the cycle of one that reaches itself.
#![tactic(auto)]

pub mod callers_first;
pub mod definitions;
pub mod functions;
mod graph;
pub mod laws;
pub mod refusal;

pub use callers_first::order;
pub use functions::Order;
pub use refusal::OrderRefusal;
