// The first corner of a box at which a question is answered by yes.

ghost use Rattle.std.specs.Prelude.{◌+◌, ◌≤◌, length};
ghost use Rattle.operator_meaning.specs.Clipping.{Clips};
ghost use Rattle.operator_meaning.specs.Table.{row_of};
ghost use Rattle.range_transfer.specs.Box.{operands_of, corners, FitRanges, Finds, IsFirstCorner};
ghost use Rattle.range_transfer.specs.Fitting.{AreRanges, AllFit};
ghost use Rattle.range_transfer.specs.Site.{widths_of, HasBox, Stops, Answers, kind_of};

use crate::corner::Corner;
use crate::question::{Question, answer};
use operator_meaning::{Op, SiteKind};
use range_core::Range;

/// The first corner of these ranges, after the operands that are given, at which the answer is yes.
fn first_from(question: Question, given: Corner, ranges: &[Range]) -> Option<Corner>
    requires boxed { HasBox (kind_of question) }
    requires count { given.count + length ranges.now ≤ 3 }
    requires ranges { AreRanges ranges.now }
    requires fit { AllFit (kind_of question) (corners (operands_of given) ranges.now) }
    ensures { Finds (Answers question) (corners (operands_of given) ranges.now) result }
{
    let [range, ranges @ ..] = ranges else {
        return answer(question, given).then_some(given);
    };
    let Range::Span { lo, hi } = *range else {
        return None;
    };
    match first_from(question, given.with(lo as i32), ranges) {
        Some(corner) => Some(corner),
        None => first_from(question, given.with(hi as i32), ranges),
    }
}

/// The first corner of the box at which the operator clips, in the order of the operands, the low end of an
/// operand before its high end. There is none exactly where the operator clips on no operands of the box.
pub fn saturating_corner(op: Op, operands: &[Range]) -> Option<Corner>
    requires { FitRanges (row_of op).takes operands.now }
    ensures { IsFirstCorner (Clips op) operands.now result }
{
    first_from(Question::DoesClip(op), Corner::none(), operands)
}

/// The first corner of the box at which the site stops, in the same order. There is none exactly where the
/// site stops on no operands of the box.
pub fn stopping_corner(kind: SiteKind, operands: &[Range]) -> Option<Corner>
    requires boxed { HasBox kind }
    requires operands { FitRanges (widths_of kind) operands.now }
    ensures { IsFirstCorner (Stops kind) operands.now result }
{
    first_from(Question::DoesStop(kind), Corner::none(), operands)
}
