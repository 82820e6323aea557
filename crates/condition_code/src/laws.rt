// What the code of a condition does.

ghost use Rattle.condition_code.specs.Laws.{ConditionsAreDone};

/// The code of a condition leads to its target where the condition holds, or does not hold, as is wanted, and else to its
/// end; the count is brought up at both places.
pub fn conditions_are_done()
    ensures { ConditionsAreDone }
{}
