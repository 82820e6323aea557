// The tables of weights.

ghost use Rattle.std.specs.Prelude.{◌≡◌, ◌≢◌, MatchOption};
ghost use Rattle.weight_table.specs.declared.table.Table.TheVariants.{One};

/// A table of weights.
#[derive(Clone, Copy, Debug, PartialEq, Eq, Hash)]
pub enum Table {
    /// The first table.
    One,
}

/// The table of this number: the first has the number 1, and no other number has one.
pub fn table_of(number: u32) -> Option<Table>
    ensures { MatchOption result (number ≢ 1) (λ table. (number ≡ 1) × (table ≡ One)) }
{
    match number {
        1 => Some(Table::One),
        _ => None,
    }
}
