// What holds of the objects of the tree of every lawful source, and of the parameters of its
// functions: laws alone, one for each line of what a lawful tree is that is about them.
#![tactic(auto)]

mod laws;

pub use laws::{
    data_are_few, initial_values_fit, objects_are_declared, objects_follow, objects_have_functions,
    objects_have_shapes, parameters_are_few, parameters_are_objects, scalars_are_few,
    views_are_few, views_are_not_static,
};
