// Code that grows.

ghost use Rattle.std.specs.Prelude.{◌≡◌, ◌≤◌, [], ◌∷◌, ◌++◌, length, OnOk};
ghost use Rattle.code_lines.specs.declared.word.Word.TheVariants.{Own};
ghost use Rattle.operator_lowering.specs.Words.{template_words};
ghost use Rattle.operator_meaning.specs.declared.site.Guard.TheVariants.{Kept};
ghost use Rattle.code_lines.specs.Words.{template_of};
ghost use Rattle.expression_code.specs.Code.{form_of};
ghost use Rattle.code_pieces.specs.Pieces.{all_entries, all_words, Appends, AreSiteRegisters, Extends, most_words, words_of, IsLowered};

use crate::piece::{Entry, Piece};
use rv_encode::Instr;
use sat_base::Memory;
use std::alloc::Global;
use std::marker::Model;
use template_runs::Registers;

/// The most words that code has.
pub const MOST_WORDS: u32 = 16_777_216;

/// Code, piece after piece, with the number of its words. Contracts see the list of its pieces.
#[derive(Drop)]
pub struct Code {
    pieces: Vec<Piece>,
    words: u32,
}

impl Model for Code {
    ghost use Rattle.std.specs.Prelude.{List};
    ghost use Rattle.code_pieces.specs.declared.piece.Piece.{Piece};
    ghost use Rattle.code_pieces.specs.Pieces.{IsCode};

    ghost Value = { List Piece };

    ghost view = { λ c. c.pieces.items };

    ghost invariant = { λ c. IsCode c.pieces.items c.words };
}

impl Code {
    /// No code.
    pub fn new(alloc: Global) -> Code
        ensures { result ≡ [] }
    {
        Code {
            pieces: Vec::new(alloc),
            words: 0,
        }
    }

    /// How many words it has.
    pub fn len(&self) -> u32
        ensures count { result ≡ length (all_words self.now) }
        ensures few { result ≤ most_words }
    {
        self.words
    }

    /// Its pieces, in order.
    pub fn pieces(&self) -> &[Piece]
        ensures { result.now ≡ self.now }
    {
        self.pieces.as_slice()
    }

    /// Appends a word of the code's own.
    pub fn push_own(&mut self, instr: Instr) -> Result<(), Memory>
        ensures { OnOk result (Extends self.old self.new (Own instr ∷ [])) }
    {
        self.push(Piece::Single(instr), 1)
    }

    // Appends a piece of so many words.
    pub(crate) fn push(&mut self, piece: Piece, words: u32) -> Result<(), Memory>
        requires count { words ≡ length (words_of piece) }
        requires lowered { IsLowered piece }
        ensures { OnOk result (self.new ≡ self.old ++ piece ∷ []) }
    {
        if words > MOST_WORDS - self.words {
            return Err(Memory);
        }
        self.pieces.push(piece)?;
        self.words += words;
        Ok(())
    }

    /// Appends other code.
    pub fn append(&mut self, other: &Code) -> Result<(), Memory>
        ensures { OnOk result (Appends self.old self.new (all_words other.now) (all_entries other.now)) }
    {
        if other.words > MOST_WORDS - self.words {
            return Err(Memory);
        }
        self.pieces.extend_from_slice(other.pieces.as_slice())?;
        self.words += other.words;
        Ok(())
    }
}
