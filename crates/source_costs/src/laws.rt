// How much the code of a source costs at most.

ghost use Rattle.source_costs.specs.Laws.{TokensCoverCosts, TreesCostNoMore, SourcesCostNoMore};

/// A source costs at most 128 words for each of the tokens that spell it.
pub fn tokens_cover_costs()
    ensures { TokensCoverCosts }
{}

/// The intermediate tree of an expression, a place, an argument, a call, a statement and a block costs no
/// more than that part of the source, whatever its names are tied to.
pub fn trees_cost_no_more()
    ensures { TreesCostNoMore }
{}

/// The trees of all functions of a source cost no more than the source.
pub fn sources_cost_no_more()
    ensures { SourcesCostNoMore }
{}
