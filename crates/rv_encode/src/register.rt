// The names of the registers that have a use of their own (RISC-V unprivileged specification, RV32I base integer
// instruction set, and the names of its calling convention for T0 to T6, A0 and A7).

/// Always 0.
pub const ZERO: u8 = 0;

/// A register that words between two values may change, as are T1 to T6.
pub const T0: u8 = 5;

/// As T0.
pub const T1: u8 = 6;

/// As T0.
pub const T2: u8 = 7;

/// As T0.
pub const T3: u8 = 28;

/// As T0.
pub const T4: u8 = 29;

/// As T0.
pub const T5: u8 = 30;

/// As T0.
pub const T6: u8 = 31;

/// What an environment call takes and gives.
pub const A0: u8 = 10;

/// The number of an environment call.
pub const A7: u8 = 17;

/// The lower 32 bits of the weighted count.
pub const COUNT: u8 = 24;

/// The upper 32 bits of the weighted count.
pub const COUNT_UPPER: u8 = 25;

/// Where the data memory begins.
pub const DATA: u8 = 26;

/// Overflow.
pub const OVERFLOW: u8 = 27;
