// Lines of what is lawful that hold of the tree of every lawful source.

ghost use Rattle.lawful_ir.specs.Laws.{ArgumentsFit, ConstantsAreFew, ConversionsStand, CutsStand, LeavesStandInLoops, NodesArePlaced, ReturnsFit, SitesAreFew, SitesAreInOrder, WeightsAreKnown};

/// No node stands where none of its kind may, or with other parts than it takes.
pub fn nodes_are_placed()
    ensures { NodesArePlaced }
{}

/// A view is given where one is taken, and a number where that is.
pub fn arguments_fit()
    ensures { ArgumentsFit }
{}

/// What is returned fits what the function gives.
pub fn returns_fit()
    ensures { ReturnsFit }
{}

/// What leaves a loop stands in one.
pub fn leaves_stand_in_loops()
    ensures { LeavesStandInLoops }
{}

/// An implied conversion stands exactly where it has to.
pub fn conversions_stand()
    ensures { ConversionsStand }
{}

/// The relational constants are few.
pub fn constants_are_few()
    ensures { ConstantsAreFew }
{}

/// The sites are few.
pub fn sites_are_few()
    ensures { SitesAreFew }
{}

/// The sites are in the order of their tokens.
pub fn sites_are_in_order()
    ensures { SitesAreInOrder }
{}

/// The table of weights is known.
pub fn weights_are_known()
    ensures { WeightsAreKnown }
{}

/// The cuts are those of the tree, in their order.
pub fn cuts_stand()
    ensures { CutsStand }
{}
