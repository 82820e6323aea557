// A word of emitted code.

use rv_encode::Instr;

/// A word of emitted code, by what it is for: one of the code's own, or the first or a further one of the words of a site,
/// which has this number.
#[derive(Clone, Copy, PartialEq, Eq, Debug)]
pub enum Word {
    Own(Instr),
    First { site: u32, instr: Instr },
    Further(Instr),
}
