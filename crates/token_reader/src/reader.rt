// The tokens that are still to be read.

ghost use Rattle.std.specs.Prelude.{◌≡◌, true, false, if◌then◌else◌, length, map, suc};
ghost use Rattle.c_grammar.specs.declared.refusal.ReadRefusal.TheVariants as refusals;
ghost use Rattle.c_grammar.specs.Spots.{here, seen};
ghost use Rattle.c_grammar.specs.Symbols.{same_symbol};
ghost use Rattle.right_reading.specs.Stream.{ahead, rest, take_at, name_at, number_at, first_or_end};
ghost use Rattle.token_reader.specs.Gives.{Gives, refusal_of};

use c_grammar::{ReadRefusal, Spot, Symbol};
use sat_base::{At, Name, Named, Pos};
use std::alloc::Global;
use std::marker::Model;

/// The tokens that are not read yet, in order. A contract sees them as this list.
#[derive(Drop)]
pub struct Reader<'a> {
    spots: &'a [Spot<'a>],
}

impl<'a> Model for Reader<'a> {
    ghost use Rattle.std.specs.Prelude.{List, map};
    ghost use Rattle.c_grammar.specs.Spots.{Spot, seen};

    ghost Value = { List Spot };

    ghost view = { λ r. map seen r.spots.now };
}

impl<'a> Reader<'a> {
    /// Nothing is read yet.
    pub fn new(spots: &'a [Spot<'a>]) -> Reader<'a>
        ensures { result ≡ map seen spots.now }
    {
        Reader { spots }
    }

    /// The token ahead, or the place after the last one.
    fn first(&self) -> Spot<'a>
        ensures { seen result ≡ first_or_end self.now }
    {
        match self.spots {
            [first, ..] => *first,
            [] => Spot {
                at: At {
                    tok: 0,
                    pos: Pos { line: 1, col: 1 },
                },
                symbol: Symbol::End,
                value: 0,
                name: &[],
            },
        }
    }

    /// What the token ahead is.
    pub fn ahead(&self) -> Symbol
        ensures { result ≡ ahead self.now }
    {
        self.first().symbol
    }

    /// Where the token ahead stands.
    pub fn here(&self) -> At
        ensures { result ≡ here self.now }
    {
        self.first().at
    }

    /// How many tokens there are.
    pub fn left(&self) -> usize
        ensures { result ≡ length self.now }
    {
        self.spots.len()
    }

    /// One more than there are tokens: no list of things that go over a token each is longer.
    pub fn turns(&self) -> usize
        ensures { result ≡ suc (length self.now) }
    {
        self.spots.len() + 1
    }

    /// Goes over the token ahead, whatever it is, and answers where it stood.
    pub fn pass(&mut self) -> At
        ensures at { result ≡ here self.old }
        ensures rest { self.new ≡ rest self.old }
    {
        let at = self.here();
        if let [_, rest @ ..] = self.spots {
            self.spots = rest;
        }
        at
    }

    /// Goes over the token ahead where it is this one, and answers whether it is.
    pub fn pass_if(&mut self, symbol: Symbol) -> bool
        ensures value { result ≡ same_symbol (ahead self.old) symbol }
        ensures rest { self.new ≡ if result then rest self.old else self.old }
    {
        let is_ahead = self.ahead().is(symbol);
        if is_ahead {
            self.pass();
        }
        is_ahead
    }

    /// Goes over this token, which has to be ahead, and answers where it stood.
    pub fn take(&mut self, symbol: Symbol) -> Result<At, ReadRefusal>
        ensures { Gives (take_at symbol self.old) result self.new }
    {
        if !self.ahead().is(symbol) {
            return Err(self.syntax());
        }
        Ok(self.pass())
    }

    /// The name that has to be ahead.
    pub fn name(&mut self, alloc: Global) -> Result<Named, ReadRefusal>
        ensures { Gives (name_at self.old) result self.new }
    {
        let first = self.first();
        let at = self.take(Symbol::Name)?;
        let name = Name::from_slice(alloc, first.name)?;
        Ok(Named { at, name })
    }

    /// The number that has to be ahead, and where it stands.
    pub fn number(&mut self) -> Result<(At, i32), ReadRefusal>
        ensures { Gives (number_at self.old) result self.new }
    {
        let first = self.first();
        let at = self.take(Symbol::Int)?;
        Ok((at, first.value))
    }

    /// No source goes on with the token ahead.
    pub fn syntax(&self) -> ReadRefusal
        ensures { result ≡ refusal_of (record { deep = false; at = here self.now }) }
    {
        self.refuse(false)
    }

    /// Each source that goes on with the token ahead is too deep.
    pub fn too_deep(&self) -> ReadRefusal
        ensures { result ≡ refusal_of (record { deep = true; at = here self.now }) }
    {
        self.refuse(true)
    }

    /// The refusal where no node may stand: too deep where one begins with the token ahead, and else of syntax.
    pub fn refuse(&self, begins: bool) -> ReadRefusal
        ensures { result ≡ refusal_of (record { deep = begins; at = here self.now }) }
    {
        let At { tok, pos } = self.here();
        if begins {
            ReadRefusal::TooDeep { tok, pos }
        } else {
            ReadRefusal::Syntax { tok, pos }
        }
    }
}
