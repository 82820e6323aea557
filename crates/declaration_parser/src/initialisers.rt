// Reads initialisers (C90, 6.5.7).

ghost use Rattle.right_reading.specs.ReadDeclarations.{initialiser_at, values_at, rows_at, row_at};
ghost use Rattle.right_reading.specs.ReadExpressions.{expression_at};
ghost use Rattle.token_reader.specs.Gives.{Gives};

use c_grammar::{ReadRefusal, Symbol};
use c_tree::{Arg, Expr, Init, Row};
use expression_parser::expression;
use sqlite_items::Items;
use std::alloc::Global;
use token_reader::{Reader, braced};

/// What follows the `=` of a scalar or an array (C90, 6.5.7).
#[tactic(auto, unfolding(right_reading::specs::ReadDeclarations::initialiser_at))]
pub(crate) fn initialiser(
    alloc: Global,
    reader: &mut Reader<'_>,
    limit: u32,
) -> Result<Init, ReadRefusal>
    ensures { Gives (initialiser_at limit reader.old) result reader.new }
{
    if !reader.pass_if(Symbol::OpenBrace) {
        let value = expression(alloc, reader, limit)?;
        return Ok(Init::One(Arg::Value(value.tree)));
    }
    if reader.ahead().is(Symbol::OpenBrace) {
        Ok(Init::Rows(rows(alloc, reader, limit)?))
    } else {
        Ok(Init::Flat(values(alloc, reader, limit)?))
    }
}

/// A value of at most this height.
fn value(alloc: Global, reader: &mut Reader<'_>, limit: u32) -> Result<Expr, ReadRefusal>
    ensures { Gives (expression_at limit reader.old) result reader.new }
{
    Ok(expression(alloc, reader, limit)?.tree)
}

/// One value or more, and the `}` that follows them. A comma may stand before it.
#[tactic(auto, unfolding(right_reading::specs::ReadDeclarations::values_at))]
fn values(alloc: Global, reader: &mut Reader<'_>, limit: u32) -> Result<Items<Expr>, ReadRefusal>
    ensures { Gives (values_at limit reader.old) result reader.new }
{
    braced(alloc, reader, |reader| value(alloc, reader, limit))
}

/// One row or more, and the `}` that follows them. A comma may stand before it.
#[tactic(auto, unfolding(right_reading::specs::ReadDeclarations::rows_at))]
fn rows(alloc: Global, reader: &mut Reader<'_>, limit: u32) -> Result<Items<Row>, ReadRefusal>
    ensures { Gives (rows_at limit reader.old) result reader.new }
{
    braced(alloc, reader, |reader| row(alloc, reader, limit))
}

/// A row in its braces.
#[tactic(auto, unfolding(right_reading::specs::ReadDeclarations::row_at))]
fn row(alloc: Global, reader: &mut Reader<'_>, limit: u32) -> Result<Row, ReadRefusal>
    ensures { Gives (row_at limit reader.old) result reader.new }
{
    reader.take(Symbol::OpenBrace)?;
    let values = values(alloc, reader, limit)?;
    Ok(Row { values })
}
