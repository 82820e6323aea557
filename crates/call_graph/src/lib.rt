// Which functions call which, by numbers: an order with callers first, or the cycle of a function that reaches
// itself.
#![tactic(auto)]

mod backwards;
mod cycle;
mod distance;
pub mod graph;
pub mod laws;
pub mod refusal;
pub mod search;

pub use graph::CallGraph;
pub use refusal::OrderRefusal;
pub use search::order;
