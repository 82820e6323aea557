// The places of a program at which something is computed or checked, and how they may be compiled.

use crate::operator::Op;

/// What a site computes or checks.
#[derive(Clone, Copy, Debug, PartialEq, Eq, Hash)]
pub enum SiteKind {
    /// A call of an operator.
    Call(Op),
    /// A sum in plain arithmetic.
    Sum,
    /// A difference in plain arithmetic.
    Difference,
    /// A product in plain arithmetic.
    Product,
    /// A negation in plain arithmetic.
    Opposite,
    /// An index, which has to be from 0 to one less than the number.
    Bound(u32),
    /// An offset of a view, which has to lie inside the object.
    ViewBound,
    /// An offset of a view, which has to lie inside the object or be its length.
    ViewEdge,
    /// The reading of a sample.
    Sample,
}

/// How an operator is compiled: without a clip, with clips alone, or with clips that set Overflow.
#[derive(Clone, Copy, Debug, PartialEq, Eq, Hash)]
pub enum Form {
    Plain,
    Clamp,
    Flag,
}

/// Whether the check of a site is compiled.
#[derive(Clone, Copy, Debug, PartialEq, Eq, Hash)]
pub enum Guard {
    Kept,
    Gone,
}
