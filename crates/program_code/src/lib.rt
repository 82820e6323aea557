// The code of whole programs of one function, and that they run as their sources do: a law alone.
#![tactic(auto)]

mod laws;

pub use laws::programs_run_alike;
