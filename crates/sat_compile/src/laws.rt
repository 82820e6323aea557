// What follows from the definitions of accepted texts and of refusals alone.

ghost use Rattle.sat_compile.specs.Laws.{OneSource, SourcesAreNotRefused};

/// A text has at most one source.
pub fn one_source()
    ensures { OneSource }
{}

/// No line tells of an accepted text why it is refused.
pub fn sources_are_not_refused()
    ensures { SourcesAreNotRefused }
{}
