// The pieces of which code is made.

use operator_meaning::SiteKind;
use rv_encode::Instr;
use template_runs::Registers;

/// A site by its number, and what it computes or checks.
#[derive(Clone, Copy, PartialEq, Eq, Debug)]
pub struct Entry {
    pub site: u32,
    pub kind: SiteKind,
}

/// A piece of code: a single word of its own, or the words of a site over these registers.
#[derive(Clone, Copy, PartialEq, Eq, Debug)]
pub enum Piece {
    Single(Instr),
    Template { entry: Entry, regs: Registers },
}
