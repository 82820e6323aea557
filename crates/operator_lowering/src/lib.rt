// The words of sites.
#![tactic(auto)]

mod assembly;
mod checks;
pub mod laws;
pub mod lowering;
pub mod making;
mod operators;
mod site;
pub mod site_registers;
mod tables;
pub mod way;
pub mod words;

pub use lowering::template;
pub use making::regs;
pub use site_registers::Regs;
pub use words::Words;
