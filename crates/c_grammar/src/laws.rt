// What follows from the grammar alone.

ghost use Rattle.c_grammar.specs.Programs.{DepthsAreThoseOfTrees, FrontsGoOn};

/// The depth with which tokens spell a program, whole or as a front, is the depth of its tree.
pub fn depths_of_trees()
    ensures { DepthsAreThoseOfTrees }
{}

/// The tokens that a front spells begin some program, so that a syntax fault stands at the first token with which the
/// tokens before it cannot go on.
pub fn fronts_go_on()
    ensures { FrontsGoOn }
{}
