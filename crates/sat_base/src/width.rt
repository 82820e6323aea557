// The widths of numbers.

/// The width of an object or of an operand: 16 bits (`Word16`, `short`) or 32 bits (`Word32`, `int`).
#[derive(Clone, Copy, Debug, PartialEq, Eq, PartialOrd, Ord, Hash)]
pub enum Width {
    W16,
    W32,
}
