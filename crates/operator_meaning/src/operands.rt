// Whether numbers can be the operands of an operator.

ghost use Rattle.std.specs.Prelude.{◌↔◌, IsTrue};
ghost use Rattle.operator_meaning.specs.Table.{AreOperands, FitsWidth, FitWidths};

use crate::operator::Op;
use crate::table::widths;
use sat_base::Width;

/// Whether the number lies in the signed range of the width.
fn fits(width: Width, x: i32) -> bool
    ensures { IsTrue result ↔ FitsWidth width x }
{
    match width {
        Width::W16 => -32_768 <= x && x <= 32_767,
        Width::W32 => true,
    }
}

/// Whether there are as many numbers as widths, each in the range of its width.
fn fit(widths: &[Width], args: &[i32]) -> bool
    ensures { IsTrue result ↔ FitWidths widths.now args.now }
{
    let [width, widths @ ..] = widths else {
        return args.is_empty();
    };
    let [x, args @ ..] = args else {
        return false;
    };
    fits(*width, *x) && fit(widths, args)
}

/// Whether the numbers can be the operands of the operator: there are as many as it takes, each in the range
/// of its width.
pub fn are_operands(op: Op, args: &[i32]) -> bool
    ensures { IsTrue result ↔ AreOperands op args.now }
{
    fit(widths(op), args)
}
