// What follows from the grammar of statements.

ghost use Rattle.statement_reading.specs.Laws.{BlocksAreRead};

/// Where expressions and declarations are read rightly, so are blocks with their statements.
pub fn blocks_are_read()
    ensures { BlocksAreRead }
{}
