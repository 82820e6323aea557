// Sample files: numbers of 16 bits, little-endian, one after the other, and nothing else.
#![tactic(auto)]

pub mod laws;
pub mod reading;
pub mod refusal;
pub mod spelling;

pub use reading::samples;
pub use refusal::SampleRefusal;
pub use spelling::bytes_of;
