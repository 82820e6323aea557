// Ranges of whole numbers of 32 bits, and the thresholds that their ends are rounded out to.
#![tactic(auto)]

pub mod constants;
pub mod range;
pub mod rounding;

pub use constants::thresholds;
pub use range::{Range, contains, join, meet};
pub use rounding::Thresholds;
