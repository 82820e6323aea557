// Images, their bytes in files, and in the specifications what is observed of them when they run.
#![tactic(auto)]

mod entry;
mod header;
pub mod image;
pub mod laws;
pub mod reading;
pub mod refusal;
pub mod spelling;

pub use image::{Image, SiteEntry};
pub use reading::read_bytes;
pub use refusal::ImageRefusal;
pub use spelling::write_bytes;
