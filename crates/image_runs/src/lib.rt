// Whole runs of an image on an input, with all that it writes.
#![tactic(auto)]

pub mod emulation;
pub mod laws;
pub mod limits;

pub use emulation::{ImageRun, run_image};
pub use limits::IMAGE_BYTES;
