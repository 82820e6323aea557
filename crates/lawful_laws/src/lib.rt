// A source whose names are tied is lawful: laws alone, one for each line of it that is proved.
#![tactic(auto)]

mod laws;

pub use laws::{
    functions_are_whole, functions_return, leaves_stand_in_loops, returns_fit, sites_are_in_order,
    views_are_not_static, weights_are_known,
};
