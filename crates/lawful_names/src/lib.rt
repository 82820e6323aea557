// What names stand for in a source without a fault is what they are tied to: laws alone, one for each line of what is
// lawful that follows from it.
#![tactic(auto)]

mod laws;

pub use laws::{
    arguments_are_counted, arguments_fit, callees_are_defined, const_is_kept, constants_are_few,
    conversions_stand, data_are_few, functions_are_few, functions_exist, has_main,
    main_is_not_called, names_differ, objects_begin, objects_exist, objects_have_functions,
    objects_have_shapes, parameters_are_few, parameters_are_objects, places_fit, scalars_are_few,
    statements_are_few, values_are_given, views_are_few, widths_agree,
};
