// A small RISC-V machine with the memory map and the environment calls of this project, and the image that it
// loads.
#![tactic(auto)]

mod arithmetic;
mod calls;
mod effects;
pub mod laws;
pub mod machine;
pub mod memory;
pub mod pause;
pub mod samples;
pub mod state;
mod step;

pub use machine::Machine;
pub use pause::Pause;
pub use sat_base::MachineFault;
