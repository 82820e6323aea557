// That trees do what the parts of a source do.

ghost use Rattle.std.specs.Prelude.{ℕ, Bool, List};
ghost use Rattle.typed_meaning.specs.Expressions.{Setting, Called};
ghost use Rattle.tree_agreement.specs.Agreement.{Renumbers, PartsAgree};

/// The tree of an expression, of a place, of an argument and of a call does what that part of the source does, from every
/// state, where calls of functions do.
pub fn parts_agree()
    ensures { (here : Setting) (numbers : List ℕ) (called tree_called : Called) (defined : ℕ → Bool) → Renumbers defined numbers called tree_called → PartsAgree here numbers called tree_called defined }
{}
