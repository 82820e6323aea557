// What the code of an expression does.

ghost use Rattle.expression_code.specs.Laws.{ExpressionsAreDone};

/// The code of an expression leaves its value on the stack, stops where it stops, and adds to the count, in time, what it
/// weighs; Overflow, output and samples are those of the source.
pub fn expressions_are_done()
    ensures { ExpressionsAreDone }
{}
