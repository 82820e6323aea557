// Why a text is refused.

ghost use Rattle.std.specs.Prelude.{◌≡◌};

use c_lexer::LexRefusal;
use c_reader::ReadRefusal;
use sat_base::{Fault, Memory, Name, Pos, fault_text};
use sqlite_items::Items;
use std::alloc::AllocError;

/// The place of what is told of a text as a whole.
const BEGINNING: Pos = Pos { line: 1, col: 1 };

/// The lexical rules that a text can break.
#[derive(Clone, Copy, Debug, PartialEq, Eq)]
pub enum LexKind {
    BadByte,
    OpenComment,
    BadNumber,
    BadDirective,
    TooManyTokens,
}

/// Why nothing is made of a text.
#[derive(Debug, Drop)]
pub enum CompileRefusal {
    /// The text has more bytes than a source may have.
    TooLong,
    /// The text breaks this lexical rule, here first.
    Lex { kind: LexKind, pos: Pos },
    /// No program goes on with this token.
    Syntax { tok: u32, pos: Pos },
    /// Each program that goes on with this token is too deep.
    TooDeep { tok: u32, pos: Pos },
    /// The program has this fault, or passes this limit.
    Faulty(Fault),
    /// A function reaches itself: the name in its definition, and the names along a cycle of calls.
    Recursive { pos: Pos, names: Items<Name> },
    /// The source has not the form that is compiled.
    NotYet,
    /// Want of memory.
    Memory,
}

impl CompileRefusal {
    ghost use Rattle.sat_compile.specs.Telling.{place_of, words_of, names_of};

    /// The place that is told.
    pub fn place(&self) -> Pos
        ensures { result ≡ place_of self.now }
    {
        match self {
            CompileRefusal::Lex { pos, .. }
            | CompileRefusal::Syntax { pos, .. }
            | CompileRefusal::TooDeep { pos, .. }
            | CompileRefusal::Recursive { pos, .. } => *pos,
            CompileRefusal::Faulty(fault) => fault.pos,
            CompileRefusal::TooLong | CompileRefusal::NotYet | CompileRefusal::Memory => BEGINNING,
        }
    }

    /// The words that are told.
    pub fn words(&self) -> &'static str
        ensures { result.now ≡ words_of self.now }
    {
        match self {
            CompileRefusal::TooLong => "source too long",
            CompileRefusal::Lex { kind, .. } => kind.words(),
            CompileRefusal::Syntax { .. } => "syntax",
            CompileRefusal::TooDeep { .. } => "too deep",
            CompileRefusal::Faulty(fault) => fault_text(fault.kind),
            CompileRefusal::Recursive { .. } => "recursion",
            CompileRefusal::NotYet => "not yet",
            CompileRefusal::Memory => "out of memory",
        }
    }

    /// The names that are told after the words.
    pub fn names(&self) -> &[Name]
        ensures { result.now ≡ names_of self.now }
    {
        match self {
            CompileRefusal::Recursive { names, .. } => names.as_slice(),
            _ => &[],
        }
    }
}

impl LexKind {
    ghost use Rattle.sat_compile.specs.Telling.{lexical_words};

    /// The words that are told.
    pub fn words(self) -> &'static str
        ensures { result.now ≡ lexical_words self }
    {
        match self {
            LexKind::BadByte => "bad byte",
            LexKind::OpenComment => "open comment",
            LexKind::BadNumber => "bad number",
            LexKind::BadDirective => "bad directive",
            LexKind::TooManyTokens => "too many tokens",
        }
    }
}

fn lexical(kind: LexKind, pos: Pos) -> CompileRefusal
    ensures { result ≡ CompileRefusal.Lex kind pos }
{
    CompileRefusal::Lex { kind, pos }
}

impl From<LexRefusal> for CompileRefusal {
    ghost use Rattle.sat_compile.specs.Telling.{IsLexicalPassed};

    ghost from_gives = { IsLexicalPassed };

    fn from(refusal: LexRefusal) -> CompileRefusal {
        match refusal {
            LexRefusal::BadByte(pos) => lexical(LexKind::BadByte, pos),
            LexRefusal::OpenComment(pos) => lexical(LexKind::OpenComment, pos),
            LexRefusal::BadNumber(pos) => lexical(LexKind::BadNumber, pos),
            LexRefusal::BadDirective(pos) => lexical(LexKind::BadDirective, pos),
            LexRefusal::TooManyTokens(pos) => lexical(LexKind::TooManyTokens, pos),
            LexRefusal::Memory => CompileRefusal::Memory,
        }
    }
}

impl From<ReadRefusal> for CompileRefusal {
    ghost use Rattle.sat_compile.specs.Telling.{IsReadingPassed};

    ghost from_gives = { IsReadingPassed };

    fn from(refusal: ReadRefusal) -> CompileRefusal {
        match refusal {
            ReadRefusal::Syntax { tok, pos } => CompileRefusal::Syntax { tok, pos },
            ReadRefusal::TooDeep { tok, pos } => CompileRefusal::TooDeep { tok, pos },
            ReadRefusal::Memory => CompileRefusal::Memory,
        }
    }
}

impl From<Memory> for CompileRefusal {
    ghost use Rattle.sat_compile.specs.declared.refusal.CompileRefusal.TheVariants as refusals;

    ghost from_gives = { λ _ refusal. refusal ≡ refusals.Memory };

    fn from(_error: Memory) -> CompileRefusal {
        CompileRefusal::Memory
    }
}

impl From<AllocError> for CompileRefusal {
    ghost use Rattle.sat_compile.specs.declared.refusal.CompileRefusal.TheVariants as refusals;

    ghost from_gives = { λ _ refusal. refusal ≡ refusals.Memory };

    fn from(_error: AllocError) -> CompileRefusal {
        CompileRefusal::Memory
    }
}
