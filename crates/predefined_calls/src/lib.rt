// The calls whose names are in scope everywhere and need no definition: the basic operators (ITU-T G.191,
// Software Tool Library manual), the calls that count, and those that read and write samples.
#![tactic(auto)]

mod calls;

pub use calls::{arity, callee_named, gives, takes};

#[cfg(test)]
mod tests;
