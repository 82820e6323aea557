// The tokens of the sites of a source, in order.

ghost use Rattle.std.specs.Prelude.{◌≡◌, [], IfOk, map};
ghost use Rattle.std.specs.List.Sorted.{IsNonDecreasingBy};
ghost use Rattle.tied_names.specs.Numbers.{number_in, token_of};

use operator_meaning::Site;
use sat_base::Memory;
use std::alloc::Global;
use std::marker::Model;

/// The tokens of all sites in their order, which contracts see as their list.
#[derive(Drop)]
pub struct Tokens {
    tokens: Vec<u32>,
}

impl Model for Tokens {
    ghost use Rattle.std.specs.Prelude.{ℕ, List};

    ghost Value = { List ℕ };

    ghost view = { λ t. t.tokens.items };

    ghost use Rattle.tied_names.specs.Numbers.{AreInOrder};

    ghost invariant = { AreInOrder };
}

impl Tokens {
    /// No site is known.
    pub fn none(alloc: Global) -> Tokens
        ensures { result ≡ [] }
    {
        Tokens {
            tokens: Vec::new(alloc),
        }
    }

    /// Those of these sites, which are in the order of their tokens.
    pub fn of(alloc: Global, sites: &[Site]) -> Result<Tokens, Memory>
        requires { IsNonDecreasingBy token_of sites.now }
        ensures { IfOk result (λ tokens. tokens ≡ map token_of sites.now) }
    {
        let mut tokens = Vec::new(alloc);
        for site in sites {
            tokens.push(site.tok)?;
        }
        Ok(Tokens { tokens })
    }

    /// The number of the site at the token: how many stand before it.
    pub fn number_at(&self, tok: u32) -> Result<u32, Memory>
        ensures { IfOk result (λ number. number ≡ number_in self.now tok) }
    {
        let mut low = 0;
        let mut high = self.tokens.len();
        while low < high {
            let middle = low + (high - low) / 2;
            if self.tokens[middle] < tok {
                low = middle + 1;
            } else {
                high = middle;
            }
        }
        match u32::try_from(low) {
            Ok(number) => Ok(number),
            Err(_) => Err(Memory),
        }
    }
}
