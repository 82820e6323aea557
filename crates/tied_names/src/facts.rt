// What is known of a whole source before its tree is tied.

ghost use Rattle.std.specs.Prelude.{◌≡◌, [], IfOk, map};
ghost use Rattle.std.specs.List.Sorted.{IsNonDecreasingBy};
ghost use Rattle.tied_names.specs.Numbers.{token_of, exposed_in, is_exposed};

use crate::note::Note;
use crate::tokens::Tokens;
use operator_meaning::Site;
use sat_base::Memory;
use std::alloc::Global;
use std::collections::BTreeSet;

/// The tokens of all sites, and the objects that are exposed.
#[derive(Drop)]
pub struct Facts {
    pub tokens: Tokens,
    pub exposed: BTreeSet<u32>,
}

impl Facts {
    /// Nothing is known.
    pub fn nothing(alloc: Global) -> Facts
        ensures tokens { result.tokens ≡ [] }
        ensures exposed { result.exposed.keys ≡ [] }
    {
        Facts {
            tokens: Tokens::none(alloc),
            exposed: BTreeSet::new(alloc),
        }
    }

    /// The sites in their order, and the objects that the notes expose.
    pub fn of(alloc: Global, sites: &[Site], notes: &[Note]) -> Result<Facts, Memory>
        requires { IsNonDecreasingBy token_of sites.now }
        ensures tokens { IfOk result (λ facts. facts.tokens ≡ map token_of sites.now) }
        ensures exposed { IfOk result (λ facts. facts.exposed.keys ≡ exposed_in [] notes.now) }
    {
        let tokens = Tokens::of(alloc, sites)?;
        let mut exposed = BTreeSet::new(alloc);
        for note in notes {
            match note {
                Note::Site(_) => {},
                Note::Exposed(number) => {
                    exposed.insert(*number)?;
                },
            }
        }
        Ok(Facts { tokens, exposed })
    }

    /// Whether the object of this number is exposed.
    pub fn is_exposed(&self, number: u32) -> bool
        ensures { result ≡ is_exposed self.now.exposed.keys number }
    {
        self.exposed.contains(&number)
    }
}
