// The commands, and the top call: words in, a status out.
#![tactic(auto)]

mod build;
mod files;
pub mod gathered;
mod input;
mod run_image;
mod run_result;
mod run_source;
pub mod top_call;

pub use gathered::{NoWords, gather, start};
pub use top_call::satc;
