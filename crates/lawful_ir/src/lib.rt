// Lawful trees: what holds of the tree of every lawful source, read of its own nodes and numbers alone; and laws alone,
// one for each line that follows from what a lawful source is.
#![tactic(auto)]

mod laws;

pub use laws::{
    arguments_fit, constants_are_few, conversions_stand, cuts_stand, leaves_stand_in_loops,
    nodes_are_placed, returns_fit, sites_are_few, sites_are_in_order, weights_are_known,
};
