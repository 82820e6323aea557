// What follows from the grammar of expressions.

ghost use Rattle.expression_reading.specs.Laws.{ExpressionsAreRead};

/// Whatever the limit, types, expressions, places and arguments are read rightly.
pub fn expressions_are_read()
    ensures { ExpressionsAreRead }
{}
