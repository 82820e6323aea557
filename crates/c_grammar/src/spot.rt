// The tokens of a source as the grammar sees them.

ghost use Rattle.std.specs.Prelude.{◌≡◌, ◌+◌, ◌≤◌, ◌<◌, ◌∷◌, ◌++◌, [], map, length, All, IfOk};
ghost use Rattle.sat_base.specs.declared.limits.TheConstants.{TOKENS};
ghost use Rattle.c_lexer.specs.Spans.{LiesIn};
ghost use Rattle.c_grammar.specs.Spots.{end_of, name_of, seen, spot_of, spots_of, value_of};

use crate::symbol::{Symbol, symbol_of};
use c_lexer::{Token, TokenKind, Tokens};
use sat_base::{At, Memory};
use std::alloc::Global;

/// A token, or the place after the last one.
#[derive(Clone, Copy)]
pub struct Spot<'a> {
    pub at: At,
    pub symbol: Symbol,
    /// The value of a number, and 0 of everything else.
    pub value: i32,
    /// The bytes of a name, and none of everything else.
    pub name: &'a [u8],
}

/// The value of a number, and 0 of everything else.
fn value_of(kind: TokenKind) -> i32
    ensures { result ≡ value_of kind }
{
    match kind {
        TokenKind::Int(value) => value,
        TokenKind::Word | TokenKind::Name | TokenKind::Mark => 0,
    }
}

/// The bytes where the token is a name, and else none.
fn name_of<'a>(kind: TokenKind, bytes: &'a [u8]) -> &'a [u8]
    ensures { result.now ≡ name_of kind bytes.now }
{
    match kind {
        TokenKind::Name => bytes,
        TokenKind::Word | TokenKind::Int(_) | TokenKind::Mark => &[],
    }
}

/// The token of this number in the text.
fn spot_of<'a>(text: &'a [u8], tok: u32, token: Token) -> Spot<'a>
    requires { token.start + token.len ≤ length text.now }
    ensures { seen result ≡ spot_of text.now tok token }
{
    let start = token.start as usize;
    let bytes = &text[start..start + token.len as usize];
    Spot {
        at: At {
            tok,
            pos: token.pos,
        },
        symbol: symbol_of(token.kind, bytes),
        value: value_of(token.kind),
        name: name_of(token.kind, bytes),
    }
}

/// The place after the last token.
fn end_of<'a>(tokens: &'a Tokens) -> Spot<'a>
    requires { length tokens.now.list ≤ TOKENS }
    ensures { seen result ≡ end_of tokens.now }
{
    Spot {
        at: At {
            tok: tokens.list.len() as u32,
            pos: tokens.end,
        },
        symbol: Symbol::End,
        value: 0,
        name: &[],
    }
}

/// Each token in order, and then the place after the last one.
pub fn spots<'a>(alloc: Global, tokens: &'a Tokens) -> Result<Vec<Spot<'a>>, Memory>
    requires few { length tokens.now.list ≤ TOKENS }
    requires within { All (LiesIn tokens.now.text) tokens.now.list }
    ensures { IfOk result (λ spots. map seen spots.items ≡ spots_of tokens.now ++ end_of tokens.now ∷ []) }
{
    let text = tokens.text.as_slice();
    let mut spots = Vec::new(alloc);
    let mut left = tokens.list.as_slice();
    while let [token, rest @ ..] = left {
        spots.push(spot_of(text, spots.len() as u32, *token))?;
        left = rest;
    }
    spots.push(end_of(tokens))?;
    Ok(spots)
}
