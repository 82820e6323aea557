// Whether ranges can be the operands of an operator, or of plain arithmetic.

ghost use Rattle.std.specs.Prelude.{◌↔◌, IsTrue};
ghost use Rattle.range_core.specs.Range.{IsRange};
ghost use Rattle.operator_meaning.specs.Table.{row_of};
ghost use Rattle.range_transfer.specs.Box.{FitsRange, FitRanges};

use operator_meaning::{Op, arity, takes};
use range_core::Range;
use sat_base::Width;

/// Whether the range is empty or lies in the width.
fn fits(width: Width, range: Range) -> bool
    ensures { IsTrue result ↔ FitsRange width range }
{
    let Range::Span { lo, hi } = range else {
        return true;
    };
    match width {
        Width::W16 => lo <= hi && -32_768 <= lo && hi <= 32_767,
        Width::W32 => lo <= hi && -2_147_483_648 <= lo && hi <= 2_147_483_647,
    }
}

/// Whether the range is empty or has its ends in order and in 32 bits.
pub fn is_range(range: Range) -> bool
    ensures { IsTrue result → IsRange range }
{
    fits(Width::W32, range)
}

/// Whether there are as many ranges as operands, each empty or in its width.
pub fn operands_fit(op: Op, operands: &[Range]) -> bool
    ensures { IsTrue result → FitRanges (row_of op).takes operands.now }
{
    if operands.len() != arity(op) as usize {
        return false;
    }
    for (place, range) in operands.iter().enumerate() {
        if !fits(takes(op, place as u32), *range) {
            return false;
        }
    }
    true
}
