// What an operator computes: its value, and whether a clip inside changes a number.

ghost use Rattle.std.specs.Prelude.{◌≡◌, ◌∷◌, []};
ghost use Rattle.operator_meaning.specs.Table.{AreOperands};
ghost use Rattle.operator_meaning.specs.Outcome.{IsOutcome};

use crate::clipped::{Clipped, exact};
use crate::norm::{norm_16, norm_32};
use crate::operator::Op;
use crate::product::{
    accumulate, accumulate_and_round, doubled, mult, mult_r, reduce, reduce_and_round, round, upper,
};
use crate::quotient::quotient;
use crate::shift::{shifted_16, shifted_32, shifted_back_16, shifted_back_32};
use crate::sum::{
    absolute_16, absolute_32, difference_16, difference_32, opposite_16, opposite_32, sum_16,
    sum_32,
};
use sat_base::low16;

/// What an operator of one operand computes.
fn of_one(op: Op, x: i32) -> Option<Clipped>
    requires { AreOperands op (x ∷ []) }
    ensures { IsOutcome op (x ∷ []) result }
{
    match op {
        Op::AbsS => Some(absolute_16(x)),
        Op::ExtractH => Some(exact(upper(x))),
        Op::ExtractL => Some(exact(low16(x))),
        Op::Negate => Some(opposite_16(x)),
        Op::Round => Some(round(x)),
        Op::LNegate => Some(opposite_32(x)),
        Op::LAbs => Some(absolute_32(x)),
        Op::LDepositH => Some(exact(x * 65_536)),
        Op::LDepositL => Some(exact(x)),
        Op::NormS => Some(exact(norm_16(x))),
        Op::NormL => Some(exact(norm_32(x))),
        _ => None,
    }
}

/// What an operator of two operands computes.
fn of_two(op: Op, x: i32, y: i32) -> Option<Clipped>
    requires { AreOperands op (x ∷ y ∷ []) }
    ensures { IsOutcome op (x ∷ y ∷ []) result }
{
    match op {
        Op::Add => Some(sum_16(x, y)),
        Op::Sub => Some(difference_16(x, y)),
        Op::Shl => Some(shifted_16(x, y)),
        Op::Shr => Some(shifted_16(x, -y)),
        Op::Mult => Some(mult(x, y)),
        Op::LMult => Some(doubled(x, y)),
        Op::LAdd => Some(sum_32(x, y)),
        Op::LSub => Some(difference_32(x, y)),
        Op::MultR => Some(mult_r(x, y)),
        Op::LShl => Some(shifted_32(x, y)),
        Op::LShr => Some(shifted_32(x, -y)),
        Op::ShrR => Some(shifted_back_16(x, y)),
        Op::LShrR => Some(shifted_back_32(x, y)),
        Op::DivS => quotient(x, y).map(exact),
        _ => None,
    }
}

/// What an operator of three operands computes.
fn of_three(op: Op, x: i32, a: i32, b: i32) -> Option<Clipped>
    requires { AreOperands op (x ∷ a ∷ b ∷ []) }
    ensures { IsOutcome op (x ∷ a ∷ b ∷ []) result }
{
    match op {
        Op::LMac => Some(accumulate(x, a, b)),
        Op::LMsu => Some(reduce(x, a, b)),
        Op::MacR => Some(accumulate_and_round(x, a, b)),
        Op::MsuR => Some(reduce_and_round(x, a, b)),
        _ => None,
    }
}

/// What the operator computes.
pub(crate) fn outcome(op: Op, args: &[i32]) -> Option<Clipped>
    requires { AreOperands op args.now }
    ensures { IsOutcome op args.now result }
{
    match args {
        [x] => of_one(op, *x),
        [x, y] => of_two(op, *x, *y),
        [x, a, b] => of_three(op, *x, *a, *b),
        _ => None,
    }
}
