// The weights.

ghost use Rattle.std.specs.Prelude.{◌≡◌};
ghost use Rattle.weight_table.specs.Weight.{first_weight, weight_of};
ghost use Rattle.weight_table.specs.declared.counted.Counted.TheVariants.{Call};

use crate::counted::Counted;
use crate::table::Table;
use operator_meaning::Op;

/// The weight of an operator in the first table.
fn first_operator_weight(op: Op) -> u32
    ensures { result ≡ first_weight (Call op) }
{
    match op {
        Op::Add
        | Op::Sub
        | Op::AbsS
        | Op::Shl
        | Op::Shr
        | Op::ExtractH
        | Op::ExtractL
        | Op::Mult
        | Op::LMult
        | Op::Negate
        | Op::Round
        | Op::LMac
        | Op::LMsu => 1,
        Op::MacR
        | Op::MsuR
        | Op::LAdd
        | Op::LSub
        | Op::LNegate
        | Op::MultR
        | Op::LShl
        | Op::LShr
        | Op::ShrR
        | Op::LDepositH
        | Op::LDepositL => 2,
        Op::LShrR | Op::LAbs => 3,
        Op::NormS => 15,
        Op::DivS => 18,
        Op::NormL => 30,
    }
}

/// The weight in the first table.
fn first_weight(what: Counted) -> u32
    ensures { result ≡ first_weight what }
{
    match what {
        Counted::Call(op) => first_operator_weight(op),
        Counted::Move16 | Counted::Logic16 => 1,
        Counted::Move32 | Counted::Logic32 | Counted::Test => 2,
    }
}

/// What the call adds to the weighted count, by the table.
pub fn weight(table: Table, what: Counted) -> u32
    ensures { result ≡ weight_of table what }
{
    match table {
        Table::One => first_weight(what),
    }
}
