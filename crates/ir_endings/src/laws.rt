// Lines of what is lawful that hold of the bodies of the tree of every lawful source.

ghost use Rattle.ir_endings.specs.Laws.{CallsEnd, FunctionsReturn, LoopsAreNumbered};

/// A function other than main that gives a number surely returns.
pub fn functions_return()
    ensures { FunctionsReturn }
{}

/// The cuts of parameters, of the heads of loops and of returns are numbered in their order.
pub fn loops_are_numbered()
    ensures { LoopsAreNumbered }
{}

/// No function reaches itself by calls.
pub fn calls_end()
    ensures { CallsEnd }
{}
