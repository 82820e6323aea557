// What more turns change in the runs of a source.

ghost use Rattle.std.specs.Prelude.{ℤ, List};
ghost use Rattle.c_typed.specs.declared.typed.Typed.{Typed};
ghost use Rattle.source_laws.specs.Turns.{TurnsOnlyAdd};

/// A run that is over at a number of turns is the same at every larger one, and what a run writes and evaluates at a
/// number of turns begins what it writes and evaluates at a larger one.
pub fn turns_only_add()
    ensures { (typed : Typed) (input : List ℤ) → TurnsOnlyAdd typed input }
{}
