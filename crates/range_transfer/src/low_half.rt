// The least range of the low halves of numbers.

ghost use Rattle.std.specs.Prelude.{◌≡◌, pos, ◌+ℤ◌, FitsSigned, [], ◌∷◌};
ghost use Rattle.std.specs.Int.{w32};
ghost use Rattle.operator_meaning.specs.Value.{floor};
ghost use Rattle.operator_meaning.specs.declared.operator.Op.TheVariants.{ExtractL};
ghost use Rattle.range_core.specs.Range.{IsRange, IsLeast};
ghost use Rattle.range_transfer.specs.Image.{IsValueOn};

use range_core::Range;
use sat_base::low16;

/// The run of 65536 numbers that the number is in; the low halves of a run rise from -32768 to 32767.
fn run(x: i64) -> i64
    requires { FitsSigned w32 x }
    ensures { result ≡ floor (x +ℤ pos 32768) 65536 }
{
    (x + 32_768).div_euclid(65_536)
}

/// The least range with every value of `extract_l` on operands of the range: all 16 bits, where it has numbers
/// of two runs.
pub(crate) fn image_of_low_half(operand: Range) -> Range
    requires { IsRange operand }
    ensures range { IsRange result }
    ensures least { IsLeast (IsValueOn ExtractL (operand ∷ [])) result }
{
    let Range::Span { lo, hi } = operand else {
        return Range::Empty;
    };
    if run(lo) < run(hi) {
        return Range::Span {
            lo: -32_768,
            hi: 32_767,
        };
    }
    Range::Span {
        lo: i64::from(low16(lo as i32)),
        hi: i64::from(low16(hi as i32)),
    }
}
