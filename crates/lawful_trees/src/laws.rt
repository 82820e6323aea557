// What is asked of a source, so that its tree is made and does what the source does.

ghost use Rattle.lawful_trees.specs.Laws.{LawfulObjectsAreShort, LawfulSourcesHaveTrees};

/// A lawful source whose functions have an order has a tree.
pub fn lawful_sources_have_trees()
    ensures { LawfulSourcesHaveTrees }
{}

/// The dimensions of the objects of a lawful source are small.
pub fn lawful_objects_are_short()
    ensures { LawfulObjectsAreShort }
{}
