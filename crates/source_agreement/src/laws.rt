// That the tree of a source does what the source does.

ghost use Rattle.std.specs.Prelude.{ℕ, List};
ghost use Rattle.sat_base.specs.declared.name.At.{At};
ghost use Rattle.c_typed.specs.declared.typed.Typed.{Typed};
ghost use Rattle.call_structure.specs.Definitions.{AreDefinitions};
ghost use Rattle.source_agreement.specs.Agreement.{HasTree, TreeAgrees};

/// On every input and at every number of turns the tree of a source is observed as the source is, and evaluates the
/// same sites in the same order.
pub fn sources_agree()
    ensures { (typed : Typed) (definitions : List (ℕ × At)) → AreDefinitions typed definitions → HasTree typed → TreeAgrees typed definitions }
{}
