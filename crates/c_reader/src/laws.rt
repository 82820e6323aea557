// What follows from the grammar alone, proved by reading.

ghost use Rattle.c_grammar.specs.Programs.{SpellAtMostOne};

/// Tokens spell at most one tree.
pub fn one_tree()
    ensures { SpellAtMostOne }
{}
