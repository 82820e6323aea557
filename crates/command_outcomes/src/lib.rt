// What a command comes to: its status, and the text that is put.
#![tactic(auto)]

pub mod outcome;
pub mod run_lines;

pub use outcome::{Outcome, Text, cannot_read, cannot_write, missing, refusal_line, sites};
pub use run_lines::{ended, faulted, image_refused, stopped_image, stopped_source, unfit};
