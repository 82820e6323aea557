// What reads Overflow after a site: the walks of a tree, in the specifications, and laws that they have.
#![tactic(auto)]

mod laws;

pub use laws::examples;
