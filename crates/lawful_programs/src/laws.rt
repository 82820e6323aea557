// Which lawful trees are programs.

ghost use Rattle.lawful_programs.specs.Laws.{ScalarTreesArePrograms};

/// A lawful tree over scalars is a program that code is emitted for, where its integers have 32 bits
/// and it costs at most 16,777,216 words: by each layout that has its variables, its sites without
/// words, and room for its values.
pub fn scalar_trees_are_programs()
    ensures { ScalarTreesArePrograms }
{}
