// What the declaration of an object says by itself, whatever the names in it stand for: how long an array
// is, whether its lengths and its initialiser are good, and whether a pointer stands where it may.
#![tactic(auto)]

mod initialiser;
mod length;

pub use initialiser::{has_bad_initialiser, misuses_pointer};
pub use length::{columns, elements, has_bad_length, is_array, is_bad, rows};
