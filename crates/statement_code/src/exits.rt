// Where statements lead.

/// How far `continue`, `break` and `return` lead from the end of a part, in words.
#[derive(Clone, Copy, PartialEq, Eq, Debug)]
pub struct Exits {
    pub again: i32,
    pub left: i32,
    pub returned: i32,
}
