// Lines of what is lawful that hold of every source whose names are tied.

ghost use Rattle.lawful_laws.specs.Laws.{FunctionsAreWhole, FunctionsReturn, LeavesStandInLoops, ReturnsFit, SitesAreInOrder, ViewsAreNotStatic, WeightsAreKnown};

/// A function has a body where it has a definition, and else neither that nor parameters.
pub fn functions_are_whole()
    ensures { FunctionsAreWhole }
{}

/// In a source without a fault each function that gives a number, other than `main`, surely
/// returns.
pub fn functions_return()
    ensures { FunctionsReturn }
{}

/// In a source without a fault `break` and `continue` stand in loops.
pub fn leaves_stand_in_loops()
    ensures { LeavesStandInLoops }
{}

/// In a source without a fault `return` has a value exactly where its function gives a number.
pub fn returns_fit()
    ensures { ReturnsFit }
{}

/// Where no two sites have one token, the sites stand in the order of their tokens.
pub fn sites_are_in_order()
    ensures { SitesAreInOrder }
{}

/// In a source without a fault no pointer is static.
pub fn views_are_not_static()
    ensures { ViewsAreNotStatic }
{}

/// The table of weights is one of those that there are.
pub fn weights_are_known()
    ensures { WeightsAreKnown }
{}
