// What the tree of a whole source costs at most.

ghost use Rattle.tree_costs.specs.Laws.{WholeTreesCostNoMore, TokensCoverTrees};

/// The tree of a source costs no more than the source from which its names were tied.
pub fn whole_trees_cost_no_more()
    ensures { WholeTreesCostNoMore }
{}

/// So it costs at most 128 words for each of the tokens that spell the source.
pub fn tokens_cover_trees()
    ensures { TokensCoverTrees }
{}
