// The least range of the quotients of `div_s`.

ghost use Rattle.std.specs.Prelude.{◌≡◌, pos, ◌≤ℤ◌, ◌<ℤ◌, Some, [], ◌∷◌};
ghost use Rattle.operator_meaning.specs.Value.{quotient};
ghost use Rattle.operator_meaning.specs.declared.operator.Op.TheVariants.{DivS};
ghost use Rattle.range_core.specs.Range.{IsRange, IsLeast};
ghost use Rattle.range_transfer.specs.Image.{IsValueOn};

use range_core::{Range, meet};

/// The quotient of a valid pair of operands.
fn fraction(dividend: i64, divisor: i64) -> i64
    requires dividend { pos 0 ≤ℤ dividend }
    requires divisor { pos 0 <ℤ divisor }
    requires order { dividend ≤ℤ divisor }
    requires width { divisor ≤ℤ pos 2147483647 }
    ensures { quotient dividend divisor ≡ Some result }
{
    if dividend == divisor {
        32_767
    } else {
        32_768 * dividend / divisor
    }
}

/// The least range with every value of `div_s` on valid operands of the ranges. The quotients rise with the
/// dividend and fall with the divisor. It is empty where no operands of the ranges are valid.
pub(crate) fn image_of_quotients(dividend: Range, divisor: Range) -> Range
    requires dividend { IsRange dividend }
    requires divisor { IsRange divisor }
    ensures range { IsRange result }
    ensures least { IsLeast (IsValueOn DivS (dividend ∷ divisor ∷ [])) result }
{
    let Range::Span { lo, hi } = meet(
        dividend,
        Range::Span {
            lo: 0,
            hi: 2_147_483_647,
        },
    ) else {
        return Range::Empty;
    };
    let Range::Span { lo: low, hi: high } = meet(
        divisor,
        Range::Span {
            lo: 1,
            hi: 2_147_483_647,
        },
    ) else {
        return Range::Empty;
    };
    if high < lo {
        return Range::Empty;
    }
    Range::Span {
        lo: fraction(lo, high),
        hi: fraction(hi.min(low), low),
    }
}
