// How values are compared for a relation.

use code_jumps::Test;

/// The test of two registers that a relation is, and whether they change places.
#[derive(Clone, Copy, PartialEq, Eq, Debug)]
pub struct Comparison {
    pub test: Test,
    pub turned: bool,
}
