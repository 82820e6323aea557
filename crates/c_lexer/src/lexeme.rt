// The pieces of a text, one at a time.

ghost use Rattle.std.specs.Prelude.{◌≡◌, ◌+◌, ◌≤◌, ◌<◌, length, IfSome};
ghost use Rattle.c_lexer.specs.Lexeme.{is_hash, closing_len, block_comment_of, single_kind, lexeme_of, byte_after};

use crate::bytes::{
    is_long_mark, is_short_mark, is_white, is_word_byte, is_word_start, line_len, word_len,
};

/// What a piece of a text is.
#[derive(Clone, Copy)]
pub(crate) enum Kind {
    /// One byte of white space.
    White,
    /// A comment.
    Comment,
    /// A `/*` that no `*/` follows, and the rest of the text.
    OpenComment,
    Word,
    Number,
    Mark,
    /// A `#`.
    Hash,
    /// A byte with which no piece begins.
    Other,
}

/// The piece at the front of a text: its kind, and how many bytes it has.
#[derive(Clone, Copy)]
pub(crate) struct Lexeme {
    pub(crate) kind: Kind,
    pub(crate) len: usize,
}

/// How many bytes the text has up to the first `*/`, and with it.
#[tactic(auto, using(crate::proofs::Closings::closings))]
fn closing_len(text: &[u8]) -> Option<usize>
    ensures value { result ≡ closing_len text.now }
    ensures within { IfSome result (λ n. n ≤ length text.now) }
{
    for i in 0..text.len() {
        if text[i..].starts_with(b"*/") {
            return Some(i + 2);
        }
    }
    None
}

/// The comment that begins with the text's `/*`.
#[tactic(auto, unfolding(crate::specs::Lexeme::block_comment_of))]
fn block_comment(text: &[u8]) -> Lexeme
    requires { 2 ≤ length text.now }
    ensures value { result ≡ block_comment_of text.now }
    ensures some { 0 < result.len }
    ensures within { result.len ≤ length text.now }
{
    match closing_len(&text[2..]) {
        Some(len) => Lexeme {
            kind: Kind::Comment,
            len: len + 2,
        },
        None => Lexeme {
            kind: Kind::OpenComment,
            len: text.len(),
        },
    }
}

/// The byte at the place, or 0 after the text.
fn byte_after(text: &[u8], at: usize) -> u8
    ensures { result ≡ byte_after text.now at }
{
    if at < text.len() { text[at] } else { 0 }
}

/// Whether the piece is a `#`.
pub(crate) fn is_hash(kind: Kind) -> bool
    ensures { result ≡ is_hash kind }
{
    matches!(kind, Kind::Hash)
}

/// What a piece of one byte is, which begins no word, number or comment.
fn single(byte: u8) -> Kind
    ensures { result ≡ single_kind byte }
{
    if is_white(byte) {
        Kind::White
    } else if is_short_mark(byte) {
        Kind::Mark
    } else if byte == b'#' {
        Kind::Hash
    } else {
        Kind::Other
    }
}

/// The longest piece at the front of the text.
#[tactic(auto, unfolding(crate::specs::Lexeme::lexeme_of))]
pub(crate) fn lexeme_of(text: &[u8]) -> Lexeme
    requires { 0 < length text.now }
    ensures value { result ≡ lexeme_of text.now }
    ensures some { 0 < result.len }
    ensures within { result.len ≤ length text.now }
{
    let first = text[0];
    let second = byte_after(text, 1);
    if first == b'/' && second == b'*' {
        return block_comment(text);
    }
    if first == b'/' && second == b'/' {
        return Lexeme {
            kind: Kind::Comment,
            len: line_len(text),
        };
    }
    if is_long_mark(first, second) {
        return Lexeme {
            kind: Kind::Mark,
            len: 2,
        };
    }
    if is_word_byte(first) {
        return Lexeme {
            kind: if is_word_start(first) {
                Kind::Word
            } else {
                Kind::Number
            },
            len: word_len(text),
        };
    }
    Lexeme {
        kind: single(first),
        len: 1,
    }
}
