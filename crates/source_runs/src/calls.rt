// The operators and the calls that count, as what a run keeps has them.

ghost use Rattle.std.specs.Prelude.{◌≡◌, ◌<◌, [], ◌∷◌, length};
ghost use Rattle.operator_meaning.specs.Table.{row_of, arity_of, width_at, FitsWidth, AreOperands};
ghost use Rattle.weight_table.specs.Weight.{weight_of};
ghost use Rattle.source_runs.specs.State.{counted};
ghost use Rattle.source_runs.specs.Calls.{table_numbered, operand_at, operated, operator_call};
ghost use Rattle.source_runs.specs.Follows.{Follows};

use crate::halt::Halt;
use crate::location::Given;
use crate::state::{RunState, convert};
use operator_meaning::{Op, arity, raises, takes, value};
use weight_table::{Counted, Table, table_of, weight};

/// The table of weights of this number; the first where the number has none.
pub fn table_numbered(number: u32) -> Table
    ensures { result ≡ table_numbered number }
{
    match table_of(number) {
        Some(table) => table,
        None => Table::One,
    }
}

/// The operand at the place: the argument there, converted to its width.
fn operand(op: Op, place: u32, givens: &[Given]) -> i32
    requires { place < arity_of op }
    ensures value { result ≡ operand_at (row_of op).takes place givens.now }
    ensures fits { FitsWidth (width_at (row_of op).takes place) result }
{
    let number = match givens.get(place as usize) {
        Some(Given::Number(number)) => *number,
        _ => 0,
    };
    convert(takes(op, place), number)
}

impl RunState {
    /// An operator on its operands: its value, after which its weight is added and Overflow is set where it
    /// raises; a stop at the site where it has none.
    fn operated(&mut self, table: Table, site: u32, op: Op, args: &[i32]) -> Result<i32, Halt>
        requires { AreOperands op args.now }
        ensures { Follows (operated table site op args.now) result self.old self.new }
    {
        let Ok(found) = value(op, args) else {
            return Err(Halt::Stopped(site));
        };
        self.add_to_count(weight(table, Counted::Call(op)));
        self.raise(raises(op, args));
        Ok(found)
    }

    /// The call of an operator with these arguments.
    pub fn operator_call(
        &mut self,
        table: Table,
        site: u32,
        op: Op,
        givens: &[Given],
    ) -> Result<i32, Halt>
        ensures { Follows (operator_call table site op givens.now) result self.old self.new }
    {
        let count = arity(op);
        if count == 1 {
            return self.operated(table, site, op, &[operand(op, 0, givens)]);
        }
        if count == 2 {
            let args = [operand(op, 0, givens), operand(op, 1, givens)];
            return self.operated(table, site, op, &args);
        }
        let args = [
            operand(op, 0, givens),
            operand(op, 1, givens),
            operand(op, 2, givens),
        ];
        self.operated(table, site, op, &args)
    }

    /// A counting call.
    pub fn counting(&mut self, table: Table, what: Counted)
        ensures { self.new ≡ counted (weight_of table what) self.old }
    {
        self.add_to_count(weight(table, what));
    }
}
