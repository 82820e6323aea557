// What every other crate stands on: positions, widths, clips, limits, and the ways in which a machine
// can fault. The specifications have the one type of what is observed of a run.
#![tactic(auto)]

pub mod clip;
pub mod fault;
pub mod laws;
pub mod limits;
pub mod machine_fault;
pub mod name;
pub mod position;
pub mod refusal;
pub mod width;

pub use clip::{clip16, clip32, low16};
pub use fault::{Fault, FaultKind, fault_text, lesser};
pub use machine_fault::MachineFault;
pub use name::{At, Name, Named};
pub use position::Pos;
pub use refusal::Memory;
pub use width::Width;
