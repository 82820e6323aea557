// What jumps and branches do.

ghost use Rattle.code_jumps.specs.Jumps.{JumpsAreDone, BranchesAreDone};

/// A jump leads to the word at its distance, in an instruction at least.
pub fn jumps_are_done()
    ensures { JumpsAreDone }
{}

/// A branch leads to the word at its distance where its test is passed, in an instruction at least, and else to the word
/// after it.
pub fn branches_are_done()
    ensures { BranchesAreDone }
{}
