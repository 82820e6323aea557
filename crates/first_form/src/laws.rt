// What follows from the first form alone.

ghost use Rattle.first_form.specs.Laws.{IsFirstAtMostOnce, IsShallow, HasOperandsAlone};

/// A tree has the first form in at most one way.
pub fn at_most_one()
    ensures { IsFirstAtMostOnce }
{}

/// Calls are nested two less deep than the tree is.
pub fn shallow()
    ensures { IsShallow }
{}

/// All numbers are from 0 to 32767.
pub fn operands()
    ensures { HasOperandsAlone }
{}
