// The words of a template.

ghost use Rattle.std.specs.Prelude.{◌≡◌, ◌+◌, ◌<◌, ◌≤◌, [], ◌∷◌, ◌++◌, map, length, IsTrue};
ghost use Rattle.rv_encode.specs.Words.{encoded};
ghost use Rattle.template_runs.specs.Fitting.{are_fit};
ghost use Rattle.template_runs.specs.Renaming.{AreInRange, all_over};

use rv_encode::{Instr, encode};
use std::marker::Model;
use template_runs::Registers;

/// The most words that a template has.
pub const MOST_WORDS: usize = 96;

/// The words of a template, of which there are at most 96, in themselves. Contracts see the list of them.
#[derive(Drop)]
pub struct Words {
    words: [u32; MOST_WORDS],
    len: usize,
}

impl Model for Words {
    ghost use Rattle.std.specs.Prelude.{ℕ, ◌≤◌, List, take};

    ghost Value = { List ℕ };

    ghost view = { λ w. take w.len w.words };

    ghost invariant = { λ w. w.len ≤ 96 };
}

impl Words {
    /// No words.
    pub(crate) fn new() -> Words
        ensures { result ≡ [] }
    {
        Words {
            words: [0; MOST_WORDS],
            len: 0,
        }
    }

    /// The words, from the first to the last.
    pub fn as_slice(&self) -> &[u32]
        ensures { result.now ≡ self.now }
    {
        &self.words[..self.len]
    }

    pub(crate) fn push(&mut self, word: u32)
        requires { length self.old < 96 }
        ensures { self.new ≡ self.old ++ word ∷ [] }
    {
        self.words[self.len] = word;
        self.len += 1;
    }

    /// Appends instructions of a template, over the registers of a site.
    pub(crate) fn put(&mut self, regs: Registers, instrs: &[Instr])
        requires room { length self.old + length instrs.now ≤ 96 }
        requires range { AreInRange regs }
        requires fit { IsTrue (are_fit instrs.now) }
        ensures { self.new ≡ self.old ++ map encoded (all_over regs instrs.now) }
    {
        for instr in instrs {
            self.push(encode(regs.over(*instr)));
        }
    }
}
