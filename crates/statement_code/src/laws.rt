// What the code of a statement does.

ghost use Rattle.statement_code.specs.Laws.{StatementsAreDone};

/// The code of a statement does what the statement does, with at most so many turns of each loop, and leads where that
/// leads: to its end, or to the words of `continue`, `break` and `return`.
pub fn statements_are_done()
    ensures { StatementsAreDone }
{}
