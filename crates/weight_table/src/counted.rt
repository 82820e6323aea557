// What is counted.

use operator_meaning::Op;

/// A call that adds to the weighted count.
#[derive(Clone, Copy, Debug, PartialEq, Eq, Hash)]
pub enum Counted {
    /// A call of an operator.
    Call(Op),
    /// `move16`: a 16-bit number is moved.
    Move16,
    /// `move32`: a 32-bit number is moved.
    Move32,
    /// `logic16`: a logical operation on 16 bits.
    Logic16,
    /// `logic32`: a logical operation on 32 bits.
    Logic32,
    /// `test`: a test of a condition.
    Test,
}
