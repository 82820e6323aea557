// The places of the operators.

ghost use Rattle.std.specs.Prelude.{◌≡◌};
ghost use Rattle.operator_meaning.specs.Order.{place_of};

use crate::operator::Op;

/// The operator's place in the table, counted from 0.
pub fn place(op: Op) -> u8
    ensures { result ≡ place_of op }
{
    op as u8
}
