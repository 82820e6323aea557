// Tokens, and why a text has none.

use sat_base::Pos;
use sqlite_items::Items;
use std::alloc::AllocError;

/// What a token is.
#[derive(Clone, Copy, Debug, PartialEq, Eq)]
pub enum TokenKind {
    /// A reserved word.
    Word,
    /// A word that is neither reserved nor defined.
    Name,
    /// The value of a number, or of a defined name.
    Int(i32),
    /// A mark.
    Mark,
}

/// A token: the `len` bytes of the text from `start` on, which is counted from 0.
#[derive(Clone, Copy, Debug, PartialEq, Eq)]
pub struct Token {
    pub kind: TokenKind,
    pub start: u32,
    pub len: u32,
    pub pos: Pos,
}

/// A text that is cut into tokens.
#[derive(Drop)]
pub struct Tokens {
    /// The bytes of the text.
    pub text: Items<u8>,
    pub list: Items<Token>,
    /// The place after the last byte.
    pub end: Pos,
}

/// Why a text is not cut into tokens, and where.
#[derive(Clone, Copy, Debug, PartialEq, Eq)]
pub enum LexRefusal {
    /// No token, comment or directive begins with this byte.
    BadByte(Pos),
    /// A `/*` that no `*/` follows.
    OpenComment(Pos),
    /// A number that breaks the rules of numbers, at its first byte.
    BadNumber(Pos),
    /// A directive that breaks the rules of directives, at its `#`.
    BadDirective(Pos),
    /// The first token that is one too many.
    TooManyTokens(Pos),
    /// Want of memory.
    Memory,
}

impl From<AllocError> for LexRefusal {
    ghost use Rattle.std.specs.Prelude.{◌≡◌};
    ghost use Rattle.c_lexer.specs.declared.token.LexRefusal.TheVariants.{Memory};

    ghost from_gives = { λ _ refusal. refusal ≡ Memory };

    fn from(_error: AllocError) -> LexRefusal {
        LexRefusal::Memory
    }
}
