// That the tree of a body asks nothing of functions that the body does not call.

ghost use Rattle.fitting_calls.specs.Keeping.{BodiesKeepFitting};

/// A body that fits where the functions of one set are defined also fits where those of another set are, if what it
/// calls of the first set is in the second.
pub fn bodies_keep_fitting()
    ensures { BodiesKeepFitting }
{}
