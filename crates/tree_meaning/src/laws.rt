// What follows from the meaning alone.

ghost use Rattle.std.specs.Prelude.{ℕ};
ghost use Rattle.sat_base.specs.declared.position.Pos.{Pos};
ghost use Rattle.tree_meaning.specs.Examples.{AreExamples};

/// What is observed of small trees_in: calls, views, blocks and loops.
pub fn examples()
    ensures { (word : Pos) (turns : ℕ) → AreExamples word turns }
{}
