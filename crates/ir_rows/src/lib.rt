// Laws alone: what each thing that stands in the tree of a lawful source has to be, read against the tree's own tables.
#![tactic(auto)]

mod laws;

pub use laws::{
    arguments_are_counted, const_is_kept, functions_exist, kinds_agree, main_is_not_called,
    marks_are_numbered, objects_begin, objects_exist, places_fit, values_are_given, widths_agree,
};
