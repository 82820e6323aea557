// What holds of the objects of every source without a fault: laws alone, one for each line of what is lawful that is
// about where an object is declared, whether a view of it is given, and what it starts with.
#![tactic(auto)]

mod laws;

pub use laws::{exposed_are_given, initial_values_fit, objects_are_declared, objects_follow};
