// What follows from the definitions of expressions and directives alone.

ghost use Rattle.c_lexer.specs.Definition.{ValuesOfDefinitions};
ghost use Rattle.c_lexer.specs.Obeyed.{DirectivesAreObeyed};
ghost use Rattle.c_lexer.specs.Sum.{ValuesOfSums};

/// The value of an expression, as it is read from left to right, is that of the sum that its parts spell.
pub fn values_of_sums()
    ensures { ValuesOfSums }
{}

/// The value that a definition gives is that of the number, the name or the sum that its parts spell.
pub fn values_of_definitions()
    ensures { ValuesOfDefinitions }
{}

/// The definitions after a directive are those to which it leads by the cases of its grammar.
pub fn directives_are_obeyed()
    ensures { DirectivesAreObeyed }
{}
