// Registers that meet.

ghost use Rattle.std.specs.Prelude.{◌≡◌};
ghost use Rattle.operator_lowering.specs.Words.{by_clip, operator_way, way_of, kept_at, places};

use operator_meaning::{Form, Guard, Op, SiteKind};
use template_runs::Registers;

// Where an operand is kept that is read after the result is written.
pub(crate) const KEPT: u8 = 28;

/// What is done before the words of a site, over registers of which some may be one.
#[derive(Clone, Copy)]
pub enum Way {
    /// Nothing.
    Straight,
    /// The first operand is moved to the register of the result.
    Moves,
    /// The first operand, which is read after the result is written, is kept in x28 where it lies in its register.
    KeepsFirst,
    /// The same of the third operand.
    KeepsThird,
    /// The same of the first two operands.
    KeepsBoth,
    /// As for the first operand, but that the second may take its part.
    Turns,
}

// A way that clips take alone.
fn by_clip(way: Way, form: Form) -> Way
    ensures { result ≡ by_clip way form }
{
    match form {
        Form::Plain => Way::Straight,
        Form::Clamp | Form::Flag => way,
    }
}

fn operator_way(op: Op, form: Form) -> Way
    ensures { result ≡ operator_way op form }
{
    match op {
        Op::AbsS | Op::LAbs => by_clip(Way::Moves, form),
        Op::LDepositL => Way::Moves,
        Op::LMac | Op::LMsu | Op::LSub => by_clip(Way::KeepsFirst, form),
        Op::LAdd => by_clip(Way::Turns, form),
        Op::LShl => by_clip(Way::KeepsBoth, form),
        _ => Way::Straight,
    }
}

/// The way in which the words of a site begin.
pub(crate) fn way_of(kind: SiteKind, form: Form, guard: Guard) -> Way
    ensures { result ≡ way_of kind form guard }
{
    match (kind, guard) {
        (SiteKind::Call(op), _) => operator_way(op, form),
        (SiteKind::Bound(_), _) => Way::Moves,
        (SiteKind::Sum, Guard::Kept) => Way::Turns,
        (SiteKind::Difference, Guard::Kept) => Way::KeepsFirst,
        (SiteKind::ViewBound | SiteKind::ViewEdge, Guard::Kept) => Way::KeepsThird,
        _ => Way::Straight,
    }
}

// The register of an operand, or the one in which it is kept where it lies in the register of the result.
fn kept_at(written: u8, number: u8) -> u8
    ensures { result ≡ kept_at written number }
{
    if written == number { KEPT } else { number }
}

impl Way {
    /// The registers of the words that follow.
    pub(crate) fn places(self, regs: Registers) -> Registers
        ensures { result ≡ places self regs }
    {
        let is_first = regs.result == regs.first;
        match self {
            Way::Straight => regs,
            Way::Moves => Registers {
                first: regs.result,
                ..regs
            },
            Way::KeepsThird => {
                if regs.result == regs.third {
                    Registers {
                        third: KEPT,
                        ..regs
                    }
                } else {
                    regs
                }
            }
            Way::KeepsBoth => Registers {
                first: kept_at(regs.result, regs.first),
                second: kept_at(regs.result, regs.second),
                ..regs
            },
            Way::Turns if is_first && regs.result != regs.second => Registers {
                first: regs.second,
                second: regs.first,
                ..regs
            },
            Way::KeepsFirst | Way::Turns => {
                if is_first {
                    Registers {
                        first: KEPT,
                        ..regs
                    }
                } else {
                    regs
                }
            }
        }
    }
}
