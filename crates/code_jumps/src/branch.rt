// How a branch decides, and how far it goes.

/// A test of two registers, as signed numbers.
#[derive(Clone, Copy, PartialEq, Eq, Debug)]
pub enum Test {
    Equal,
    Unequal,
    Less,
    NotLess,
}

/// How far a branch goes: by itself, over a near jump, or over a far one.
#[derive(Clone, Copy, PartialEq, Eq, Debug)]
pub enum Reach {
    Short,
    Middle,
    Long,
}
