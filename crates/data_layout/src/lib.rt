// Where the variables of a tree lie in the data memory, and what it first holds.
#![tactic(auto)]

pub mod first;
pub mod homes;
pub mod laying;
pub mod layout;
pub mod slots;

pub use first::first_memory;
pub use laying::data_layout;
pub use layout::DataLayout;
