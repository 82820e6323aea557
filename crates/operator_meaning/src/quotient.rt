// The quotient of two fractions of 15 bits.

ghost use Rattle.std.specs.Prelude.{◌≡◌, Some, None, FitsSigned, option_map};
ghost use Rattle.std.specs.Int.{w16};
ghost use Rattle.operator_meaning.specs.Value.{quotient};

/// `div_s`, where `0 <= a <= b` and `b > 0`.
pub(crate) fn quotient(a: i32, b: i32) -> Option<i32>
    requires first { FitsSigned w16 a }
    requires second { FitsSigned w16 b }
    ensures { result ≡ quotient a b }
{
    if a < 0 || b <= 0 || a > b {
        return None;
    }
    if a == b {
        return Some(32_767);
    }
    Some((a << 15) / b)
}
