// Which lawful trees are programs that code is emitted for: a law alone.
#![tactic(auto)]

mod laws;

pub use laws::scalar_trees_are_programs;
