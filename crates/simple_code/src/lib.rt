// The code of assignments to scalars and to Overflow, of steps, of objects that start, of samples that are written, of
// counting calls and of operators whose value is not used, and that it does what they do: laws alone.
#![tactic(auto)]

mod laws;

pub use laws::{simples_are_done, starts_are_done};
