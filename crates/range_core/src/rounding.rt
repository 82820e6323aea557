// Ranges rounded out to thresholds.

ghost use Rattle.range_core.specs.Range.{IsRange};
ghost use Rattle.range_core.specs.Thresholds.{IsRoundedOut, IsBelow, IsAbove};

use crate::range::Range;
use std::marker::Model;

/// The numbers at which a range may end once it is rounded out. Contracts see the list of them.
#[derive(Drop)]
pub struct Thresholds {
    pub(crate) values: Vec<i32>,
}

impl Model for Thresholds {
    ghost use Rattle.std.specs.Prelude.{ℤ, List};
    ghost use Rattle.range_core.specs.Kept.{IsLadder};

    ghost Value = { List ℤ };

    ghost view = { λ t. t.values.items };

    ghost invariant = { λ t. IsLadder t.values.items };
}

impl Thresholds {
    /// The greatest threshold that is not above the number, in logarithmic time.
    fn below(&self, x: i32) -> i32
        ensures { IsBelow self.now x result }
    {
        match self.values.binary_search(&x) {
            Ok(_) => x,
            Err(place) => self.values[place - 1],
        }
    }

    /// The least threshold that is not below the number, in logarithmic time.
    fn above(&self, x: i32) -> i32
        ensures { IsAbove self.now x result }
    {
        match self.values.binary_search(&x) {
            Ok(_) => x,
            Err(place) => self.values[place],
        }
    }

    /// The range with its low end at the greatest threshold not above it, and its high end at the least not
    /// below it.
    pub fn round_out(&self, range: Range) -> Range
        requires { IsRange range }
        ensures range { IsRange result }
        ensures rounded { IsRoundedOut self.now range result }
    {
        let Range::Span { lo, hi } = range else {
            return Range::Empty;
        };
        Range::Span {
            lo: i64::from(self.below(lo as i32)),
            hi: i64::from(self.above(hi as i32)),
        }
    }
}
