// Corners of boxes.

ghost use Rattle.std.specs.Prelude.{◌≡◌, ◌+◌, ◌<◌, ◌++◌, ◌∷◌, []};
ghost use Rattle.range_transfer.specs.Box.{operands_of};

/// A corner of a box: of each operand one end of its range. `count` is the number of operands, at most 3; the
/// numbers beyond are 0.
#[derive(Clone, Copy, Debug, PartialEq, Eq, Hash)]
pub struct Corner {
    pub count: u8,
    pub first: i32,
    pub second: i32,
    pub third: i32,
}

impl Corner {
    /// The corner of no operands.
    pub(crate) fn none() -> Corner
        ensures count { result.count ≡ 0 }
        ensures operands { operands_of result ≡ [] }
    {
        Corner {
            count: 0,
            first: 0,
            second: 0,
            third: 0,
        }
    }

    /// The corner with one operand more.
    pub(crate) fn with(self, x: i32) -> Corner
        requires { self.count < 3 }
        ensures count { result.count ≡ self.count + 1 }
        ensures operands { operands_of result ≡ operands_of self ++ x ∷ [] }
    {
        let count = self.count + 1;
        match self.count {
            0 => Corner {
                count,
                first: x,
                ..self
            },
            1 => Corner {
                count,
                second: x,
                ..self
            },
            _ => Corner {
                count,
                third: x,
                ..self
            },
        }
    }
}
