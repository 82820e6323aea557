// How much code a source may become, told by its tree before any names are tied: laws alone.
#![tactic(auto)]

mod laws;

pub use laws::{sources_cost_no_more, tokens_cover_costs, trees_cost_no_more};
