// The ways in which the machine can fault.

/// Why an instruction could not be carried out (RISC-V unprivileged specification, and this project's
/// memory map and environment calls).
#[derive(Clone, Copy, Debug, PartialEq, Eq, Hash)]
pub enum MachineFault {
    /// The word is no instruction of the table.
    Word,
    /// The program counter lies outside the code.
    Fetch,
    /// The target of a taken jump or branch is no multiple of 4.
    Jump,
    /// A load outside the data memory.
    Load,
    /// A store outside the data memory.
    Store,
    /// An address that is no multiple of the size of the access.
    Align,
    /// EBREAK.
    Break,
    /// An environment call with another number in x17.
    Call,
    /// An environment call for a sample where none is left.
    Input,
}
