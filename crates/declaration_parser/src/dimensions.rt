// Reads the square brackets of declarators (C90, 6.5.4.2).

ghost use Rattle.right_reading.specs.ReadDeclarations.{dimensions_at, dimension_at};
ghost use Rattle.token_reader.specs.Gives.{Gives};

use c_grammar::{ReadRefusal, Symbol};
use c_tree::Dim;
use expression_parser::{expression, index};
use std::alloc::Global;
use token_reader::Reader;

/// None to two pairs of square brackets (C90, 6.5.4.2). Only the first may be empty.
#[tactic(auto, unfolding(right_reading::specs::ReadDeclarations::dimensions_at, right_reading::specs::ReadDeclarations::columns_at))]
pub(crate) fn dimensions(
    alloc: Global,
    reader: &mut Reader<'_>,
    limit: u32,
) -> Result<(Option<Dim>, Option<Dim>), ReadRefusal>
    ensures { Gives (dimensions_at limit reader.old) result reader.new }
{
    if !reader.ahead().is(Symbol::OpenBracket) {
        return Ok((None, None));
    }
    let rows = dimension(alloc, reader, limit)?;
    if !reader.ahead().is(Symbol::OpenBracket) {
        return Ok((Some(rows), None));
    }
    let (at, length) = index(alloc, reader, limit)?;
    let length = Some(length.tree);
    Ok((Some(rows), Some(Dim { at, length })))
}

/// A pair of square brackets, with or without a length of at most this height.
#[tactic(auto, unfolding(right_reading::specs::ReadDeclarations::dimension_at, right_reading::specs::ReadDeclarations::length_at))]
pub fn dimension(alloc: Global, reader: &mut Reader<'_>, limit: u32) -> Result<Dim, ReadRefusal>
    ensures { Gives (dimension_at limit reader.old) result reader.new }
{
    let at = reader.take(Symbol::OpenBracket)?;
    if reader.pass_if(Symbol::CloseBracket) {
        return Ok(Dim { at, length: None });
    }
    let length = expression(alloc, reader, limit)?;
    reader.take(Symbol::CloseBracket)?;
    let length = Some(length.tree);
    Ok(Dim { at, length })
}
