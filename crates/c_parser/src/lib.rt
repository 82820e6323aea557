// Reads the items of a source from its tokens: each function reads what a function on lists of tokens says.
#![tactic(auto)]

mod functions;
mod items;

pub use items::parsed;
