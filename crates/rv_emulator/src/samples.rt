// The samples that a run reads.

ghost use Rattle.std.specs.Prelude.{◌≡◌, ◌↔◌, ◌∷◌, [], IfOk, IsTrue, MatchOption};

use std::alloc::{AllocError, Global};
use std::marker::Model;

/// Samples, which are taken from the front. Contracts see those that are left.
#[derive(Debug, Drop)]
pub struct Samples {
    samples: Vec<i16>,
    taken: usize,
}

impl Model for Samples {
    ghost use Rattle.std.specs.Prelude.{List, ℤ, drop};

    ghost Value = { List ℤ };

    ghost view = { λ s. drop s.taken s.samples.items };
}

impl Samples {
    /// These samples, none of which is taken.
    pub fn from_slice(alloc: Global, samples: &[i16]) -> Result<Samples, AllocError>
        ensures { IfOk result (λ left. left ≡ samples.now) }
    {
        Ok(Samples {
            samples: Vec::from_slice(alloc, samples)?,
            taken: 0,
        })
    }

    /// Whether none is left.
    pub fn is_empty(&self) -> bool
        ensures { IsTrue result ↔ (self.now ≡ []) }
    {
        self.taken >= self.samples.len()
    }

    /// Takes the first of those that are left, in constant time.
    pub fn pop_front(&mut self) -> Option<i16>
        ensures { MatchOption result ((self.old ≡ []) × (self.new ≡ [])) (λ sample. self.old ≡ sample ∷ self.new) }
    {
        let sample = self.samples.get(self.taken).copied()?;
        self.taken += 1;
        Some(sample)
    }
}
