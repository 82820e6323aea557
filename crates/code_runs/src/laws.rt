// When an image does what a source does, and enters the sites that it evaluates.

ghost use Rattle.code_runs.specs.Laws.{RunsAreAlike};

/// Where the code of an image comes to all that is observed of a source, at each number of turns, the image does what the
/// source does: the machine is where its words lead it, so nothing else is observed of it. Where both are over, it has
/// entered the sites that were evaluated, but for those without words.
pub fn runs_are_alike()
    ensures { RunsAreAlike }
{}
