// That trees do what statements and blocks do.

ghost use Rattle.std.specs.Prelude.{ℕ, Bool, List};
ghost use Rattle.typed_meaning.specs.Expressions.{Setting, Called};
ghost use Rattle.tree_agreement.specs.Agreement.{Renumbers};
ghost use Rattle.statement_agreement.specs.Agreement.{StatementsAgree};

/// The tree of a statement, and that of a block, does what the statement or the block does, from every state and at every
/// number of turns, where calls of functions do.
pub fn statements_agree()
    ensures { (here : Setting) (numbers : List ℕ) (called tree_called : Called) (defined : ℕ → Bool) → Renumbers defined numbers called tree_called → StatementsAgree here numbers called tree_called defined }
{}
