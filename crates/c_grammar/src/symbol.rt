// What a token is to the grammar.

ghost use Rattle.std.specs.Prelude.{◌≡◌, map};
ghost use Rattle.c_grammar.specs.Marks.{rank_of};
ghost use Rattle.c_grammar.specs.Spots.{symbol_of, symbol_written};
ghost use Rattle.c_grammar.specs.Symbols.{same_symbol, binary_mark, assign_mark, unary_mark, step_of, width_of, begins_type, begins_objects, begins_expression, begins_statement};

use c_lexer::TokenKind;
use c_tree::{AssignMark, BinaryMark, UnaryMark};
use sat_base::Width;

/// What a token is to the grammar.
#[derive(Clone, Copy)]
pub enum Symbol {
    /// A word that is neither reserved nor defined.
    Name,
    /// A number, or a defined name.
    Int,
    /// After the last token.
    End,
    /// A reserved word that no rule takes.
    Unused,
    Extern,
    Flag,
    /// The word `int`.
    IntWord,
    Overflow,
    Static,
    Const,
    Void,
    Word16,
    Short,
    Word32,
    Long,
    If,
    Else,
    While,
    Do,
    For,
    Break,
    Continue,
    Return,
    OpenParen,
    CloseParen,
    OpenBracket,
    CloseBracket,
    OpenBrace,
    CloseBrace,
    Comma,
    Semicolon,
    Question,
    Colon,
    Equal,
    PlusEqual,
    MinusEqual,
    StarEqual,
    AndEqual,
    OrEqual,
    XorEqual,
    PlusPlus,
    MinusMinus,
    OrOr,
    AndAnd,
    Or,
    Xor,
    And,
    EqualEqual,
    NotEqual,
    Less,
    LessEqual,
    Greater,
    GreaterEqual,
    Plus,
    Minus,
    Star,
    Not,
    Tilde,
}

/// The reserved words that the grammar has (C90, 6.1.1).
const WORDS: [(&str, Symbol); 19] = [
    ("extern", Symbol::Extern),
    ("Flag", Symbol::Flag),
    ("int", Symbol::IntWord),
    ("Overflow", Symbol::Overflow),
    ("static", Symbol::Static),
    ("const", Symbol::Const),
    ("void", Symbol::Void),
    ("Word16", Symbol::Word16),
    ("short", Symbol::Short),
    ("Word32", Symbol::Word32),
    ("long", Symbol::Long),
    ("if", Symbol::If),
    ("else", Symbol::Else),
    ("while", Symbol::While),
    ("do", Symbol::Do),
    ("for", Symbol::For),
    ("break", Symbol::Break),
    ("continue", Symbol::Continue),
    ("return", Symbol::Return),
];

/// The marks (C90, 6.1.5 and 6.1.6).
const MARKS: [(&str, Symbol); 35] = [
    ("(", Symbol::OpenParen),
    (")", Symbol::CloseParen),
    ("[", Symbol::OpenBracket),
    ("]", Symbol::CloseBracket),
    ("{", Symbol::OpenBrace),
    ("}", Symbol::CloseBrace),
    (",", Symbol::Comma),
    (";", Symbol::Semicolon),
    ("?", Symbol::Question),
    (":", Symbol::Colon),
    ("=", Symbol::Equal),
    ("+=", Symbol::PlusEqual),
    ("-=", Symbol::MinusEqual),
    ("*=", Symbol::StarEqual),
    ("&=", Symbol::AndEqual),
    ("|=", Symbol::OrEqual),
    ("^=", Symbol::XorEqual),
    ("++", Symbol::PlusPlus),
    ("--", Symbol::MinusMinus),
    ("||", Symbol::OrOr),
    ("&&", Symbol::AndAnd),
    ("|", Symbol::Or),
    ("^", Symbol::Xor),
    ("&", Symbol::And),
    ("==", Symbol::EqualEqual),
    ("!=", Symbol::NotEqual),
    ("<", Symbol::Less),
    ("<=", Symbol::LessEqual),
    (">", Symbol::Greater),
    (">=", Symbol::GreaterEqual),
    ("+", Symbol::Plus),
    ("-", Symbol::Minus),
    ("*", Symbol::Star),
    ("!", Symbol::Not),
    ("~", Symbol::Tilde),
];

/// The symbol that is written so, and `Unused` where none of these is.
fn symbol_written(table: &[(&str, Symbol)], bytes: &[u8]) -> Symbol
    ensures { result ≡ symbol_written (map (λ x. (x.0.now, x.1)) table.now) bytes.now }
{
    let mut left = table;
    while let [(text, symbol), rest @ ..] = left {
        if text.as_bytes() == bytes {
            return *symbol;
        }
        left = rest;
    }
    Symbol::Unused
}

/// What a token of this kind with these bytes is.
pub fn symbol_of(kind: TokenKind, bytes: &[u8]) -> Symbol
    ensures { result ≡ symbol_of kind bytes.now }
{
    match kind {
        TokenKind::Name => Symbol::Name,
        TokenKind::Int(_) => Symbol::Int,
        TokenKind::Word => symbol_written(&WORDS, bytes),
        TokenKind::Mark => symbol_written(&MARKS, bytes),
    }
}

impl Symbol {
    /// Whether it is this symbol.
    pub fn is(self, other: Symbol) -> bool
        ensures { result ≡ same_symbol self other }
    {
        self as u32 == other as u32
    }
}

/// The mark between two operands that the symbol is.
pub fn binary_mark(symbol: Symbol) -> Option<BinaryMark>
    ensures { result ≡ binary_mark symbol }
{
    match symbol {
        Symbol::OrOr => Some(BinaryMark::Either),
        Symbol::AndAnd => Some(BinaryMark::Both),
        Symbol::Or => Some(BinaryMark::BitOr),
        Symbol::Xor => Some(BinaryMark::BitXor),
        Symbol::And => Some(BinaryMark::BitAnd),
        Symbol::EqualEqual => Some(BinaryMark::Eq),
        Symbol::NotEqual => Some(BinaryMark::Ne),
        Symbol::Less => Some(BinaryMark::Lt),
        Symbol::LessEqual => Some(BinaryMark::Le),
        Symbol::Greater => Some(BinaryMark::Gt),
        Symbol::GreaterEqual => Some(BinaryMark::Ge),
        Symbol::Plus => Some(BinaryMark::Plus),
        Symbol::Minus => Some(BinaryMark::Minus),
        Symbol::Star => Some(BinaryMark::Times),
        _ => None,
    }
}

/// The rank of the mark: from 1 for the one that binds its operands the tightest to 9 (C90, 6.3.5 to 6.3.14).
pub fn rank_of(mark: BinaryMark) -> u32
    ensures { result ≡ rank_of mark }
{
    match mark {
        BinaryMark::Times => 1,
        BinaryMark::Plus | BinaryMark::Minus => 2,
        BinaryMark::Lt | BinaryMark::Le | BinaryMark::Gt | BinaryMark::Ge => 3,
        BinaryMark::Eq | BinaryMark::Ne => 4,
        BinaryMark::BitAnd => 5,
        BinaryMark::BitXor => 6,
        BinaryMark::BitOr => 7,
        BinaryMark::Both => 8,
        BinaryMark::Either => 9,
    }
}

/// The mark of assignment that the symbol is (C90, 6.3.16).
pub fn assign_mark(symbol: Symbol) -> Option<AssignMark>
    ensures { result ≡ assign_mark symbol }
{
    match symbol {
        Symbol::Equal => Some(AssignMark::Plain),
        Symbol::PlusEqual => Some(AssignMark::Plus),
        Symbol::MinusEqual => Some(AssignMark::Minus),
        Symbol::StarEqual => Some(AssignMark::Times),
        Symbol::AndEqual => Some(AssignMark::And),
        Symbol::OrEqual => Some(AssignMark::Or),
        Symbol::XorEqual => Some(AssignMark::Xor),
        _ => None,
    }
}

/// The mark before an operand that the symbol is (C90, 6.3.3.3).
pub fn unary_mark(symbol: Symbol) -> Option<UnaryMark>
    ensures { result ≡ unary_mark symbol }
{
    match symbol {
        Symbol::Minus => Some(UnaryMark::Minus),
        Symbol::Plus => Some(UnaryMark::Plus),
        Symbol::Not => Some(UnaryMark::Not),
        Symbol::Tilde => Some(UnaryMark::Invert),
        _ => None,
    }
}

/// Whether the symbol is the step upward, `++`, where it is a step.
pub fn step_of(symbol: Symbol) -> Option<bool>
    ensures { result ≡ step_of symbol }
{
    match symbol {
        Symbol::PlusPlus => Some(true),
        Symbol::MinusMinus => Some(false),
        _ => None,
    }
}

/// The width of the type that begins with the symbol (C90, 6.5.2).
pub fn width_of(symbol: Symbol) -> Option<Width>
    ensures { result ≡ width_of symbol }
{
    match symbol {
        Symbol::Word16 | Symbol::Short => Some(Width::W16),
        Symbol::Word32 | Symbol::Flag | Symbol::IntWord | Symbol::Long => Some(Width::W32),
        _ => None,
    }
}

/// Whether a type begins with the symbol.
pub fn begins_type(symbol: Symbol) -> bool
    ensures { result ≡ begins_type symbol }
{
    matches!(
        symbol,
        Symbol::Word16
            | Symbol::Short
            | Symbol::Word32
            | Symbol::Flag
            | Symbol::IntWord
            | Symbol::Long
    )
}

/// Whether a declaration of objects begins with the symbol.
pub fn begins_objects(symbol: Symbol) -> bool
    ensures { result ≡ begins_objects symbol }
{
    matches!(symbol, Symbol::Static | Symbol::Const) || begins_type(symbol)
}

/// Whether an expression begins with the symbol.
pub fn begins_expression(symbol: Symbol) -> bool
    ensures { result ≡ begins_expression symbol }
{
    matches!(
        symbol,
        Symbol::Minus
            | Symbol::Plus
            | Symbol::Not
            | Symbol::Tilde
            | Symbol::OpenParen
            | Symbol::Int
            | Symbol::Overflow
            | Symbol::Name
            | Symbol::Star
    )
}

/// Whether a statement begins with the symbol.
pub fn begins_statement(symbol: Symbol) -> bool
    ensures { result ≡ begins_statement symbol }
{
    matches!(
        symbol,
        Symbol::Semicolon
            | Symbol::OpenBrace
            | Symbol::If
            | Symbol::While
            | Symbol::Do
            | Symbol::For
            | Symbol::Break
            | Symbol::Continue
            | Symbol::Return
            | Symbol::Name
            | Symbol::Star
            | Symbol::PlusPlus
            | Symbol::MinusMinus
            | Symbol::Overflow
    )
}
