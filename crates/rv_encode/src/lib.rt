// The instructions of the machine, and their words both ways (RISC-V unprivileged specification, the base
// RV32I and the extension M). The specifications have the state of the machine, and what each instruction does to it.
#![tactic(auto)]

pub mod decoding;
pub mod encoding;
pub mod instruction;
pub mod laws;
mod making;
pub mod register;
mod row;

pub use decoding::decode;
pub use encoding::{encode, fits};
pub use instruction::Instr;
