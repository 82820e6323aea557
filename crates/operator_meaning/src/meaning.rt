// The values of the operators, and when they set Overflow.

ghost use Rattle.std.specs.Prelude.{◌≡◌, ◌↔◌, IfOk, IsErr, MatchResult, Some, None, IsTrue};
ghost use Rattle.operator_meaning.specs.Table.{AreOperands, FitsWidth, row_of};
ghost use Rattle.operator_meaning.specs.Value.{value_of, IsInvalid};
ghost use Rattle.operator_meaning.specs.Clipping.{Clips, Raises};

use crate::operator::Op;
use crate::outcome::outcome;
use crate::table::sets_overflow;

/// The operator has no value: it is `div_s`, and not `0 <= a <= b` or not `b > 0`.
#[derive(Clone, Copy, Debug, PartialEq, Eq, Hash)]
pub struct Invalid;

/// The value of the operator.
pub fn value(op: Op, args: &[i32]) -> Result<i32, Invalid>
    requires { AreOperands op args.now }
    ensures value { MatchResult result (λ number. value_of op args.now ≡ Some number) (λ refusal. value_of op args.now ≡ None) }
    ensures invalid { IsErr result ↔ IsInvalid op args.now }
    ensures fits { IfOk result (FitsWidth (row_of op).gives) }
{
    match outcome(op, args) {
        Some(found) => Ok(found.value),
        None => Err(Invalid),
    }
}

/// Whether the operator sets Overflow.
pub fn raises(op: Op, args: &[i32]) -> bool
    requires { AreOperands op args.now }
    ensures { IsTrue result ↔ Raises op args.now }
{
    sets_overflow(op) && clips(op, args)
}

/// Whether some clip inside the operator changes its number.
pub fn clips(op: Op, args: &[i32]) -> bool
    requires { AreOperands op args.now }
    ensures { IsTrue result ↔ Clips op args.now }
{
    match outcome(op, args) {
        Some(found) => found.clips,
        None => false,
    }
}
