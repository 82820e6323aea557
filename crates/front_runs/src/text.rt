// Texts and their tokens.

use c_lexer::{LexRefusal, Token, TokenKind, Tokens, tokens};
use sat_base::Pos;
use sat_base::limits::SOURCE_BYTES;
use std::alloc::{AllocError, Global};

/// The bytes that a text of a case stands for.
pub fn unescaped(alloc: Global, text: &str) -> Result<Vec<u8>, AllocError> {
    let mut bytes = Vec::new(alloc);
    let mut parts = text.split('\\');
    if let Some(plain) = parts.next() {
        bytes.extend_from_slice(plain.as_bytes())?;
    }
    for part in parts {
        push_escape(&mut bytes, part)?;
    }
    Ok(bytes)
}

/// Adds what stands after a backslash, up to the next one.
fn push_escape(bytes: &mut Vec<u8>, part: &str) -> Result<(), AllocError> {
    if let Some((times, rest)) = repeated_part(part) {
        let (repeated, plain) = rest.split_once('`').unwrap_or((rest, ""));
        for _ in 0..times {
            for &byte in repeated.as_bytes() {
                bytes.push(if byte == b'$' { b'\n' } else { byte })?;
            }
        }
        return bytes.extend_from_slice(plain.as_bytes());
    }
    let mut rest = part.chars();
    if let Some(byte) = rest.next().and_then(escaped) {
        bytes.push(byte)?;
    }
    bytes.extend_from_slice(rest.as_str().as_bytes())
}

/// A number of times, and what follows its `:`.
fn repeated_part(part: &str) -> Option<(u32, &str)> {
    let (times, rest) = part.split_once(':')?;
    Some((times.parse::<u32>().ok()?, rest))
}

fn escaped(letter: char) -> Option<u8> {
    match letter {
        'n' => Some(b'\n'),
        'r' => Some(b'\r'),
        't' => Some(b'\t'),
        'v' => Some(11),
        'f' => Some(12),
        'z' => Some(0),
        's' => Some(b' '),
        _ => None,
    }
}

/// The tokens of a text that is not too long.
pub fn cut(alloc: Global, text: &[u8]) -> Option<Result<Tokens, LexRefusal>> {
    if text.len() > SOURCE_BYTES {
        return None;
    }
    Some(tokens(alloc, text))
}

/// The tokens of a text, each with its kind, its span and its place, and the place after the text, or how many they
/// are; or the refusal.
pub fn tokens_of(alloc: Global, text: &[u8], each: bool) -> Result<String, AllocError> {
    match cut(alloc, text) {
        None => String::from_str(alloc, "too long"),
        Some(Err(refusal)) => shown_refusal(alloc, refusal),
        Some(Ok(found)) => {
            if each {
                shown_tokens(alloc, &found)
            } else {
                format!(in alloc; "{}", found.list.len())
            }
        }
    }
}

fn shown_tokens(alloc: Global, found: &Tokens) -> Result<String, AllocError> {
    let mut answer = String::new(alloc);
    for token in found.list.as_slice() {
        answer.push_str(shown_token(alloc, token)?.as_str())?;
    }
    let Pos { line, col } = found.end;
    answer.push_str(format!(in alloc; "end {line}:{col}")?.as_str())?;
    Ok(answer)
}

fn shown_token(alloc: Global, token: &Token) -> Result<String, AllocError> {
    let Token {
        kind,
        start,
        len,
        pos: Pos { line, col },
    } = *token;
    match kind {
        TokenKind::Word => format!(in alloc; "word {start}+{len}@{line}:{col}; "),
        TokenKind::Name => format!(in alloc; "name {start}+{len}@{line}:{col}; "),
        TokenKind::Mark => format!(in alloc; "mark {start}+{len}@{line}:{col}; "),
        TokenKind::Int(value) => format!(in alloc; "{value} {start}+{len}@{line}:{col}; "),
    }
}

/// The refusal, with its place.
pub fn shown_refusal(alloc: Global, refusal: LexRefusal) -> Result<String, AllocError> {
    let (kind, pos) = match refusal {
        LexRefusal::BadByte(pos) => ("bad byte", pos),
        LexRefusal::OpenComment(pos) => ("open comment", pos),
        LexRefusal::BadNumber(pos) => ("bad number", pos),
        LexRefusal::BadDirective(pos) => ("bad directive", pos),
        LexRefusal::TooManyTokens(pos) => ("too many tokens", pos),
        LexRefusal::Memory => return String::from_str(alloc, "memory"),
    };
    let Pos { line, col } = pos;
    format!(in alloc; "{kind} {line}:{col}")
}
