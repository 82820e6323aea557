// Least ranges between the values at corners.

ghost use Rattle.std.specs.Prelude.{◌≢◌};
ghost use Rattle.operator_meaning.specs.Table.{row_of};
ghost use Rattle.operator_meaning.specs.declared.operator.Op.TheVariants.{DivS};
ghost use Rattle.range_core.specs.Range.{IsRange, IsLeast};
ghost use Rattle.range_transfer.specs.Box.{FitRanges};
ghost use Rattle.range_transfer.specs.Image.{IsValueOn, IsBetweenCorners};
ghost use Rattle.range_transfer.specs.Site.{number_of};

use crate::corner::Corner;
use crate::hull::hull;
use operator_meaning::{Op, SiteKind, values_fit};
use range_core::Range;

/// The least range with every value of the operator on operands of the box, where each value lies between
/// values at corners. It is empty where an operand is.
pub(crate) fn image_at_corners(op: Op, operands: &[Range]) -> Range
    requires valued { op ≢ DivS }
    requires operands { FitRanges (row_of op).takes operands.now }
    requires between { IsBetweenCorners (number_of (SiteKind.Call op)) operands.now }
    ensures range { IsRange result }
    ensures least { IsLeast (IsValueOn op operands.now) result }
{
    values_fit();
    let Some(found) = hull(SiteKind::Call(op), Corner::none(), operands) else {
        return Range::Empty;
    };
    Range::Span {
        lo: found.least,
        hi: found.most,
    }
}
