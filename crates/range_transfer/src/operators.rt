// Least ranges of the operators.

ghost use Rattle.operator_meaning.specs.Table.{row_of};
ghost use Rattle.range_core.specs.Range.{IsRange, IsLeast};
ghost use Rattle.range_transfer.specs.Box.{FitRanges};
ghost use Rattle.range_transfer.specs.Image.{IsValueOn};

use crate::cornered::image_at_corners;
use crate::fraction::image_of_quotients;
use crate::low_half::image_of_low_half;
use crate::sign::image_by_sign;
use operator_meaning::{Op, shifts_round};
use range_core::Range;

/// The least range with every value of the operator on valid operands of the box. It is empty where an operand
/// is, and where `div_s` has no value on the box.
pub fn image(op: Op, operands: &[Range]) -> Range
    requires { FitRanges (row_of op).takes operands.now }
    ensures range { IsRange result }
    ensures least { IsLeast (IsValueOn op operands.now) result }
{
    shifts_round();
    match op {
        Op::AbsS | Op::LAbs | Op::NormS | Op::NormL => image_by_sign(op, operands[0]),
        Op::ExtractL => image_of_low_half(operands[0]),
        Op::DivS => image_of_quotients(operands[0], operands[1]),
        _ => image_at_corners(op, operands),
    }
}
