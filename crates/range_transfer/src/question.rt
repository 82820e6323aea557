// What is asked of the corners of a box.

ghost use Rattle.std.specs.Prelude.{◌≡◌, ◌≤◌, ◌↔◌, IsTrue, length};
ghost use Rattle.operator_meaning.specs.Table.{FitWidths};
ghost use Rattle.range_transfer.specs.Box.{operands_of};
ghost use Rattle.range_transfer.specs.Site.{widths_of, IsPlain, HasBox, GivesNumber, number_of, Stops, Answers, kind_of};

use crate::corner::Corner;
use operator_meaning::{Op, SiteKind, clips, value};

/// A question about operands.
#[derive(Clone, Copy)]
pub(crate) enum Question {
    /// Whether the operator clips.
    DoesClip(Op),
    /// Whether the site stops.
    DoesStop(SiteKind),
}

/// The number of a site of plain arithmetic.
fn plain_number(kind: SiteKind, corner: Corner) -> i64
    requires plain { IsPlain kind }
    requires fit { FitWidths (widths_of kind) (operands_of corner) }
    ensures { result ≡ number_of kind (operands_of corner) }
{
    let x = i64::from(corner.first);
    let y = i64::from(corner.second);
    match kind {
        SiteKind::Sum => x + y,
        SiteKind::Difference => x - y,
        SiteKind::Product => x * y,
        SiteKind::Opposite => -x,
        _ => 0,
    }
}

/// Whether the site stops at the corner.
fn stops(kind: SiteKind, corner: Corner) -> bool
    requires boxed { HasBox kind }
    requires count { corner.count ≤ 3 }
    requires fit { FitWidths (widths_of kind) (operands_of corner) }
    ensures { IsTrue result ↔ Stops kind (operands_of corner) }
{
    match kind {
        SiteKind::Call(op) => {
            let numbers = [corner.first, corner.second, corner.third];
            value(op, &numbers[..corner.count as usize]).is_err()
        }
        SiteKind::Bound(length) => corner.first < 0 || i64::from(length) <= i64::from(corner.first),
        _ => {
            let number = plain_number(kind, corner);
            number < -2_147_483_648 || 2_147_483_647 < number
        }
    }
}

/// Whether the operator clips at the corner.
fn clips_at(op: Op, corner: Corner) -> bool
    requires count { corner.count ≤ 3 }
    requires fit { FitWidths (widths_of (SiteKind.Call op)) (operands_of corner) }
    ensures { IsTrue result ↔ Answers (Question.DoesClip op) (operands_of corner) }
{
    let numbers = [corner.first, corner.second, corner.third];
    clips(op, &numbers[..corner.count as usize])
}

/// The answer to the question at the corner.
pub(crate) fn answer(question: Question, corner: Corner) -> bool
    requires boxed { HasBox (kind_of question) }
    requires count { corner.count ≤ 3 }
    requires fit { FitWidths (widths_of (kind_of question)) (operands_of corner) }
    ensures { IsTrue result ↔ Answers question (operands_of corner) }
{
    match question {
        Question::DoesClip(op) => clips_at(op, corner),
        Question::DoesStop(kind) => stops(kind, corner),
    }
}

/// The number of the site at the corner.
pub(crate) fn number(kind: SiteKind, corner: Corner) -> i64
    requires given { GivesNumber kind }
    requires count { corner.count ≤ 3 }
    requires fit { FitWidths (widths_of kind) (operands_of corner) }
    ensures { result ≡ number_of kind (operands_of corner) }
{
    let SiteKind::Call(op) = kind else {
        return plain_number(kind, corner);
    };
    let numbers = [corner.first, corner.second, corner.third];
    match value(op, &numbers[..corner.count as usize]) {
        Ok(value) => i64::from(value),
        Err(_) => 0,
    }
}
