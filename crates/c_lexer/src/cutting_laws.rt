// What follows from the definitions of texts, pieces and words alone.

ghost use Rattle.c_lexer.specs.CuttingLaws.{PiecesMakeTheText, PiecesFollow, FrontsAreLongest, PiecesAreLongest, LinesAreLongest, IsOnlyCutting, KindsAreApart, OperatorsAreNamed};

/// The pieces of a text, one after the other, are the text.
pub fn pieces_make_the_text()
    ensures { PiecesMakeTheText }
{}

/// What stands before a piece of a text is the pieces before it.
pub fn pieces_follow()
    ensures { PiecesFollow }
{}

/// At the front of each rest of a text stands the longest piece.
pub fn fronts_are_longest()
    ensures { FrontsAreLongest }
{}

/// Each piece of a text is the longest at its place.
pub fn pieces_are_longest()
    ensures { PiecesAreLongest }
{}

/// Each piece of the line of a directive is the longest at its place, and the line ends where it is to end.
pub fn lines_are_longest()
    ensures { LinesAreLongest }
{}

/// The pieces of a text are the only ones that it can be cut into, each as long as it can be. A directive is such a
/// piece: its `#`, and the pieces of its line.
pub fn only_cutting()
    ensures { IsOnlyCutting }
{}

/// No bytes are pieces of two kinds. So the longest piece at a place is the only one of its length.
pub fn kinds_are_apart()
    ensures { KindsAreApart }
{}

/// A word is taken for a basic operator exactly if it is the name of one.
pub fn operators_are_named()
    ensures { OperatorsAreNamed }
{}
