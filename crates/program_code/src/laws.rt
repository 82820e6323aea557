// What the code of a program does.

ghost use Rattle.program_code.specs.Laws.{ProgramsRunAlike};

/// An image that begins with the code of the body of `main`, and whose data memory has the variables as the run begins,
/// runs as the tree does, on every input and in both directions, and enters the sites that the tree evaluates.
pub fn programs_run_alike()
    ensures { ProgramsRunAlike }
{}
