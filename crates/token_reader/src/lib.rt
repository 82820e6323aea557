// The tokens of a source that are not read yet, and the lists that its grammar has.
#![tactic(auto)]

mod lists;
mod reader;

pub use lists::{braced, listed, many, more_listed};
pub use reader::Reader;
