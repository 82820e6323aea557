// Cuts a text into pieces, and judges one after the other.

ghost use Rattle.std.specs.Prelude.{◌≡◌, ◌+◌, ◌≤◌, ◌<◌, ◌==◌, ◌&&◌, ◌⊎◌, false, not, length, drop, IfOk, IfErr, MatchResult};
ghost use Rattle.std.specs.List.{list_any, All, AllPairs};
ghost use Rattle.sat_base.specs.declared.limits.TheConstants.{SOURCE_BYTES, TOKENS};
ghost use Rattle.c_lexer.specs.declared.token.LexRefusal.TheVariants.{Memory};
ghost use Rattle.c_lexer.specs.Directive.{line_bytes};
ghost use Rattle.c_lexer.specs.Judging.{IsBegun, HasPushed, IsJudged, plain_piece, directive_piece, piece_in};
ghost use Rattle.c_lexer.specs.Spans.{LiesIn, HasBytes, Precedes};
ghost use Rattle.c_lexer.specs.Text.{IsCut, first_lexical_fault, too_many, word_kind};
ghost use Rattle.c_lexer.specs.Lexeme.{is_hash};
ghost use Rattle.c_lexer.specs.Views.{names_of};

use crate::cursor::Cursor;
use crate::directive::{obey, rest_of_line};
use crate::lexeme::{Kind, Lexeme, is_hash, lexeme_of};
use crate::names::Names;
use crate::number::number_value;
use crate::token::{LexRefusal, Token, TokenKind, Tokens};
use crate::words::is_reserved;
use sat_base::limits::{SOURCE_BYTES, TOKENS};
use sqlite_items::Items;
use std::alloc::Global;

/// What was found before a place in a text.
#[derive(Drop)]
struct Lexer<'a> {
    list: Items<Token>,
    names: Names<'a>,
    /// Whether a token stands before the place on its line.
    on_line: bool,
}

impl<'a> Lexer<'a> {
    fn new(alloc: Global) -> Result<Lexer<'a>, LexRefusal>
        ensures { MatchResult result IsBegun (λ refusal. refusal ≡ Memory) }
    {
        Ok(Lexer {
            list: Items::new(alloc),
            names: Names::new(alloc)?,
            on_line: false,
        })
    }

    /// One more token.
    fn push(&mut self, kind: TokenKind, at: Cursor, len: usize) -> Result<(), LexRefusal>
        requires { at.at + len ≤ length at.text.now }
        ensures { MatchResult result (λ _. HasPushed kind at.entry.at len at.entry.pos self.old self.new) (λ refusal. (refusal ≡ Memory) ⊎ (too_many (length self.old.list) at.entry.pos ≡ Some refusal)) }
    {
        if self.list.len() >= TOKENS {
            return Err(LexRefusal::TooManyTokens(at.pos));
        }
        self.list.push(Token {
            kind,
            start: at.at as u32,
            len: len as u32,
            pos: at.pos,
        })?;
        self.on_line = true;
        Ok(())
    }

    /// What kind of token the word is.
    fn word_kind(&self, word: &[u8]) -> TokenKind
        ensures { result ≡ word_kind (names_of self.now.names) word.now }
    {
        if is_reserved(word) {
            return TokenKind::Word;
        }
        match self.names.value_of(word) {
            Some(value) => TokenKind::Int(value),
            None => TokenKind::Name,
        }
    }

    /// White space or a comment.
    fn blank(&mut self, bytes: &[u8])
        ensures { self.new ≡ record self.old { on_line = self.old.on_line && not (list_any (λ b. b == 10) bytes.now) } }
    {
        if bytes.contains(&b'\n') {
            self.on_line = false;
        }
    }

    /// Judges a piece that is no directive.
    fn piece(&mut self, at: Cursor<'a>, piece: Lexeme) -> Result<(), LexRefusal>
        requires within { at.at + piece.len ≤ length at.text.now }
        requires no_hash { is_hash piece.kind ≡ false }
        ensures { IsJudged self.old (plain_piece at.entry.text.now at.entry.at piece) self.new result }
    {
        let bytes = &at.text[at.at..at.at + piece.len];
        match piece.kind {
            Kind::White | Kind::Comment => {
                self.blank(bytes);
                Ok(())
            }
            Kind::Word => self.push(self.word_kind(bytes), at, piece.len),
            Kind::Mark => self.push(TokenKind::Mark, at, piece.len),
            Kind::Number => match number_value(bytes) {
                Some(value) => self.push(TokenKind::Int(value), at, piece.len),
                None => Err(LexRefusal::BadNumber(at.pos)),
            },
            Kind::OpenComment => Err(LexRefusal::OpenComment(at.pos)),
            Kind::Hash | Kind::Other => Err(LexRefusal::BadByte(at.pos)),
        }
    }

    /// Obeys the directive that begins at the place, and answers how many bytes it has.
    fn directive(&mut self, alloc: Global, at: Cursor<'a>) -> Result<usize, LexRefusal>
        requires { at.at < length at.text.now }
        ensures judged { IsJudged self.old (directive_piece at.entry.text.now at.entry.at) self.new result }
        ensures len { IfOk result (λ len. len ≡ 1 + line_bytes (drop (at.entry.at + 1) at.entry.text.now)) }
        ensures within { IfOk result (λ len. at.entry.at + len ≤ length at.entry.text.now) }
    {
        if self.on_line {
            return Err(LexRefusal::BadByte(at.pos));
        }
        let line = rest_of_line(alloc, &at.text[at.at + 1..])?;
        if obey(alloc, &mut self.names, line.parts.as_slice())? {
            Ok(1 + line.len)
        } else {
            Err(LexRefusal::BadDirective(at.pos))
        }
    }

    /// Judges the piece at the place, and answers how many bytes it has.
    fn next(&mut self, alloc: Global, at: Cursor<'a>) -> Result<usize, LexRefusal>
        requires { at.at < length at.text.now }
        ensures judged { IsJudged self.old (piece_in at.entry.text.now at.entry.at) self.new result }
        ensures len { IfOk result (λ len. len ≡ length (piece_in at.entry.text.now at.entry.at).bytes) }
        ensures some { IfOk result (λ len. 0 < len) }
        ensures within { IfOk result (λ len. at.entry.at + len ≤ length at.entry.text.now) }
    {
        let piece = lexeme_of(at.rest());
        if is_hash(piece.kind) {
            return self.directive(alloc, at);
        }
        match self.piece(at, piece) {
            Ok(()) => Ok(piece.len),
            Err(refusal) => Err(refusal),
        }
    }
}

/// The tokens of the text, which has at most 1,048,576 bytes. A text that breaks the lexical rules is refused at
/// the first place where it does so.
pub fn tokens(alloc: Global, text: &[u8]) -> Result<Tokens, LexRefusal>
    requires { length text.now ≤ SOURCE_BYTES }
    ensures cut { IfOk result (λ answer. IsCut text.now answer) }
    ensures few { IfOk result (λ answer. length answer.list ≤ TOKENS) }
    ensures within { IfOk result (λ answer. All (LiesIn text.now) answer.list) }
    ensures filled { IfOk result (λ answer. All HasBytes answer.list) }
    ensures ordered { IfOk result (λ answer. AllPairs Precedes answer.list) }
    ensures refused { IfErr result (λ refusal. (refusal ≡ Memory) ⊎ (first_lexical_fault text.now ≡ Some refusal)) }
{
    let mut lexer = Lexer::new(alloc)?;
    let mut at = Cursor::new(text);
    while at.at < text.len() {
        let len = lexer.next(alloc, at)?;
        at = at.after(len);
    }
    let Lexer { list, .. } = lexer;
    Ok(Tokens {
        text: Items::from_slice(alloc, text)?,
        list,
        end: at.pos,
    })
}
