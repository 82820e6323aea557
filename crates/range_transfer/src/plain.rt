// Ranges of plain arithmetic.

ghost use Rattle.std.specs.Prelude.{◌↔◌, ℤ};
ghost use Rattle.range_core.specs.Range.{IsRange, IsIn};
ghost use Rattle.range_transfer.specs.Box.{FitRanges};
ghost use Rattle.range_transfer.specs.Image.{LiesBetween};
ghost use Rattle.range_transfer.specs.Site.{widths_of, IsPlain};

use crate::corner::Corner;
use crate::hull::hull;
use operator_meaning::SiteKind;
use range_core::Range;

/// The range of a site of plain arithmetic (`+`, `-`, `*`, unary `-`): the numbers of 32 bits from the least
/// number of the box to the greatest, which stand at corners. It is empty where an operand is, or where all
/// numbers of the box lie beyond 32 bits on one side.
pub fn image_plain(kind: SiteKind, operands: &[Range]) -> Range
    requires plain { IsPlain kind }
    requires operands { FitRanges (widths_of kind) operands.now }
    ensures range { IsRange result }
    ensures values { (x : ℤ) → IsIn x result ↔ LiesBetween kind operands.now x }
{
    let Some(found) = hull(kind, Corner::none(), operands) else {
        return Range::Empty;
    };
    let lo = found.least.max(-2_147_483_648);
    let hi = found.most.min(2_147_483_647);
    if lo <= hi {
        Range::Span { lo, hi }
    } else {
        Range::Empty
    }
}
