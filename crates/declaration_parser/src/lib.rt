// Reads declarations of objects (C90, 6.5): each function reads what a function on lists of tokens says.
#![tactic(auto)]

mod declarators;
mod dimensions;
mod initialisers;
mod specifiers;

pub use declarators::{declarator, named_declarator, objects, objects_from};
pub use dimensions::dimension;
pub use specifiers::qualifiers;
