// The fields of the words of sites, and which of these write Overflow: laws alone.
#![tactic(auto)]

mod laws;

pub use laws::{
    guards_that_cannot_stop, only_flags_write_overflow, templates_are_short, templates_fit,
};
