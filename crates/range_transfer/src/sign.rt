// Least ranges of the operators whose values turn at 0.

ghost use Rattle.std.specs.Prelude.{[], ◌∷◌};
ghost use Rattle.operator_meaning.specs.Table.{row_of};
ghost use Rattle.range_core.specs.Range.{IsRange, IsLeast};
ghost use Rattle.range_transfer.specs.Box.{FitRanges};
ghost use Rattle.range_transfer.specs.Image.{IsValueOn};
ghost use Rattle.range_transfer.specs.Site.{TurnsAtZero};

use crate::cornered::image_at_corners;
use operator_meaning::Op;
use range_core::{Range, join, meet};

/// The least range with every value of `abs_s`, `L_abs`, `norm_s` or `norm_l` on operands of the range. The
/// values only rise or only fall over the negative operands, and so over the positive ones.
pub(crate) fn image_by_sign(op: Op, operand: Range) -> Range
    requires turns { TurnsAtZero op }
    requires operand { FitRanges (row_of op).takes (operand ∷ []) }
    ensures range { IsRange result }
    ensures least { IsLeast (IsValueOn op (operand ∷ [])) result }
{
    let negative = meet(
        operand,
        Range::Span {
            lo: -2_147_483_648,
            hi: -1,
        },
    );
    let zero = meet(operand, Range::Span { lo: 0, hi: 0 });
    let positive = meet(
        operand,
        Range::Span {
            lo: 1,
            hi: 2_147_483_647,
        },
    );
    let not_positive = join(
        image_at_corners(op, &[negative]),
        image_at_corners(op, &[zero]),
    );
    join(not_positive, image_at_corners(op, &[positive]))
}
