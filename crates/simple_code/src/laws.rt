// What the code of assignments and their like does.

ghost use Rattle.simple_code.specs.Laws.{SimplesAreDone, StartsAreDone};

/// The code of an assignment to a scalar or to Overflow, of a step, of a sample that is written, of a counting call and of
/// an operator whose value is not used does what these do, and leaves nothing on the stack.
pub fn simples_are_done()
    ensures { SimplesAreDone }
{}

/// The code by which an object of a block starts does what its start does, and leaves nothing on the stack.
pub fn starts_are_done()
    ensures { StartsAreDone }
{}
