// What follows from the walks alone.

ghost use Rattle.sat_base.specs.declared.position.Pos.{Pos};
ghost use Rattle.flag_readers.specs.Laws.{AreExamples};

/// Readers of a site behind a call, and in a caller.
pub fn examples()
    ensures { (word : Pos) → AreExamples word }
{}
