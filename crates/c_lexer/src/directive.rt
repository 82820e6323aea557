// Directives: `#include`, which is skipped, and `#define` of a number.

ghost use Rattle.std.specs.Prelude.{◌≡◌, ◌≤◌, ◌<◌, length, map, option_map, IfOk, IfSome, MatchResult, if◌then◌else◌};
ghost use Rattle.c_lexer.specs.Directive.{is_blank, is_open, next_in_line, line_parts, line_bytes, negative_value, bracketed_value, defined_value, may_be_defined, after_define, is_this_word, after_directive};
ghost use Rattle.c_lexer.specs.Views.{part_of, names_of, Steps};

use crate::expression::{Part, expression_value, operand};
use crate::lexeme::{Kind, Lexeme, lexeme_of};
use crate::names::Names;
use crate::number::number_value;
use crate::words::{is_operator, is_reserved};
use std::alloc::{AllocError, Global};

/// The rest of the line of a directive.
#[derive(Drop)]
pub(crate) struct Line<'a> {
    pub(crate) parts: Vec<Part<'a>>,
    /// How many bytes it has.
    pub(crate) len: usize,
}

/// The piece at the front of a rest of a line, which ends before a line feed and before a `/*` without its `*/`.
#[tactic(auto, unfolding(crate::specs::Directive::next_in_line))]
fn next_in_line(rest: &[u8]) -> Option<Lexeme>
    ensures value { result ≡ next_in_line rest.now }
    ensures some { IfSome result (λ piece. 0 < piece.len) }
    ensures within { IfSome result (λ piece. piece.len ≤ length rest.now) }
{
    if rest.is_empty() || rest[0] == b'\n' {
        return None;
    }
    let piece = lexeme_of(rest);
    match piece.kind {
        Kind::OpenComment => None,
        _ => Some(piece),
    }
}

/// Whether the piece is white space or a comment.
fn is_blank(kind: Kind) -> bool
    ensures { result ≡ is_blank kind }
{
    matches!(kind, Kind::White | Kind::Comment)
}

/// The rest of the line of a directive, after its `#`.
pub(crate) fn rest_of_line(alloc: Global, text: &[u8]) -> Result<Line<'_>, AllocError>
    ensures parts { IfOk result (λ line. map part_of line.parts.items ≡ line_parts text.now) }
    ensures len { IfOk result (λ line. line.len ≡ line_bytes text.now) }
    ensures within { IfOk result (λ line. line.len ≤ length text.now) }
{
    let mut parts = Vec::new(alloc);
    let mut len = 0;
    let mut spaced = false;
    while let Some(piece) = next_in_line(&text[len..]) {
        let bytes = &text[len..len + piece.len];
        len += piece.len;
        if is_blank(piece.kind) {
            spaced = true;
            continue;
        }
        parts.push(Part {
            kind: piece.kind,
            bytes,
            spaced,
        })?;
        spaced = false;
    }
    Ok(Line { parts, len })
}

/// The value of a minus and a number.
#[tactic(auto, using(crate::proofs::Facts::within_from), unfolding(crate::specs::Directive::negative_value))]
fn negative_value(sign: Part, number: Part) -> Option<i32>
    ensures { result ≡ negative_value (part_of sign.entry) (part_of number.entry) }
{
    if sign.is("-") && matches!(number.kind, Kind::Number) {
        number_value(number.bytes)?.checked_neg()
    } else {
        None
    }
}

/// The value of an expression in brackets, the first of which is given apart.
#[tactic(auto, unfolding(crate::specs::Directive::bracketed_value))]
fn bracketed_value(
    alloc: Global,
    names: &Names,
    first: Part,
    rest: &[Part],
) -> Result<Option<i32>, AllocError>
    ensures { IfOk result (λ value. value ≡ bracketed_value (names_of names.now) (part_of first.entry) (map part_of rest.now)) }
{
    match rest.split_last() {
        Some((last, inner)) if first.is("(") && last.is(")") => {
            expression_value(alloc, names, inner)
        }
        _ => Ok(None),
    }
}

/// The value that a definition gives: a number, a defined name, a minus and a number, or an expression in
/// brackets.
fn defined_value(alloc: Global, names: &Names, parts: &[Part]) -> Result<Option<i32>, AllocError>
    ensures { IfOk result (λ value. value ≡ defined_value (names_of names.now) (map part_of parts.now)) }
{
    match parts {
        [] => Ok(None),
        [part] => Ok(operand(names, *part)),
        [sign, number] => Ok(negative_value(*sign, *number)),
        [first, rest @ ..] => bracketed_value(alloc, names, *first, rest),
    }
}

/// Whether the name may be defined with the value.
#[tactic(auto, unfolding(crate::specs::Directive::may_be_defined))]
fn may_be_defined(names: &Names, name: &[u8], value: i32) -> bool
    ensures { result ≡ may_be_defined (names_of names.now) name.now value }
{
    if is_reserved(name) || is_operator(name) {
        return false;
    }
    match names.value_of(name) {
        Some(other) => other == value,
        None => true,
    }
}

/// Obeys a `#define` with these parts after its word, and answers whether it keeps the rules.
#[tactic(auto, unfolding(crate::specs::Directive::after_define))]
fn define<'a>(
    alloc: Global,
    names: &mut Names<'a>,
    name: Part<'a>,
    value: &[Part<'a>],
) -> Result<bool, AllocError>
    ensures { Steps (after_define (names_of names.old) (part_of name.entry) (map part_of value.now)) (names_of names.new) result }
{
    if !matches!(name.kind, Kind::Word) || !value.first().is_some_and(|part| part.spaced) {
        return Ok(false);
    }
    let Some(value) = defined_value(alloc, names, value)? else {
        return Ok(false);
    };
    if !may_be_defined(names, name.bytes, value) {
        return Ok(false);
    }
    names.define(name.bytes, value)?;
    Ok(true)
}

/// Whether the part is this word.
fn is_this_word(part: Part, word: &str) -> bool
    ensures { result ≡ is_this_word (part_of part.entry) word.now }
{
    matches!(part.kind, Kind::Word) && part.is(word)
}

/// Obeys the directive with these parts after its `#`, and answers whether it keeps the rules.
pub(crate) fn obey<'a>(
    alloc: Global,
    names: &mut Names<'a>,
    parts: &[Part<'a>],
) -> Result<bool, AllocError>
    ensures { Steps (after_directive (names_of names.old) (map part_of parts.now)) (names_of names.new) result }
{
    match parts {
        [first, ..] if is_this_word(*first, "include") => Ok(true),
        [first, name, value @ ..] if is_this_word(*first, "define") => {
            define(alloc, names, *name, value)
        }
        _ => Ok(false),
    }
}
