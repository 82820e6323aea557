// What follows from the meaning alone.

ghost use Rattle.sat_base.specs.declared.name.At.{At};
ghost use Rattle.source_runs.specs.State.{SourceState};
ghost use Rattle.typed_meaning.specs.Expressions.{Setting, Called};
ghost use Rattle.typed_meaning.specs.Laws.{AreExamples};

/// What small parts of sources do: loops that go on and that end, a stop, and the order of evaluation.
pub fn examples()
    ensures { (at : At) (here : Setting) (called : Called) (s : SourceState) → AreExamples at here called s }
{}
