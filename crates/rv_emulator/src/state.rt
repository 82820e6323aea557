// The registers and the memory of the machine.

use crate::memory::DataMemory;
use crate::samples::Samples;
use sat_base::MachineFault;

/// The registers x0 to x31, the program counter, the data memory, and the samples that are left. What was written
/// is handed on and not kept.
#[derive(Debug, Drop)]
pub struct Hart {
    pub registers: [i32; 32],
    pub pc: u32,
    pub memory: DataMemory,
    pub input: Samples,
}

/// How a run was over.
#[derive(Clone, Copy, Debug, PartialEq, Eq)]
pub enum Ending {
    /// It ended, with the value of Overflow and the weighted count.
    Ended { overflow: i32, count: u64 },
    /// It stopped at a site.
    Stopped { site: u32 },
    /// The instruction at this pc faulted.
    Faulted { pc: u32, kind: MachineFault },
}
