// How many words emitted code has.

ghost use Rattle.code_costs.specs.Laws.{ProgramsAreShort};

/// The code of a program has room in what its function may cost, beside the beginning.
pub fn programs_are_short()
    ensures { ProgramsAreShort }
{}
