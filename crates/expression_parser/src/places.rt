// Reads places.

ghost use Rattle.c_tree.specs.Depth.{depth_of_expression, depth_of_place};
ghost use Rattle.expression_parser.specs.Heights.{Measures, MeasuresAt};
ghost use Rattle.right_reading.specs.ReadExpressions.{expression_at, index_by, indices_at, named_at, indirection_at, place_at};

use crate::expressions::expression;
use crate::measured::Measured;
use c_grammar::{ReadRefusal, Symbol};
use c_tree::{Expr, Place};
use sat_base::{At, Named};
use std::alloc::Global;
use token_reader::Reader;

/// An index in its square brackets, whose `[` is answered too (C90, 6.3.2.1).
#[cycle(expressions)]
#[tactic(auto, unfolding(right_reading::specs::ReadExpressions::index_by))]
pub fn index(
    alloc: Global,
    reader: &mut Reader<'_>,
    limit: u32,
) -> Result<(At, Measured<Expr>), ReadRefusal>
    ensures { MeasuresAt depth_of_expression limit (index_by (expression_at limit) reader.old) result reader.new }
{
    let mark_at = reader.take(Symbol::OpenBracket)?;
    let index = expression(alloc, reader, limit)?;
    reader.take(Symbol::CloseBracket)?;
    Ok((mark_at, index))
}

/// The place that begins with this name, which is read already, of at most this height: the name with none
/// to two indices.
#[cycle(expressions)]
#[tactic(auto, using(crate::proofs::ReaderEquations::indices_none, crate::proofs::ReaderEquations::indices_some, crate::proofs::HeightEquations::index_depth, crate::proofs::HeightEquations::index2_depth), unfolding(right_reading::specs::ReadExpressions::indices_by, right_reading::specs::ReadExpressions::second_by))]
pub fn indices(
    alloc: Global,
    reader: &mut Reader<'_>,
    name: Named,
    limit: u32,
) -> Result<Measured<Place>, ReadRefusal>
    ensures { Measures depth_of_place limit (indices_at limit name reader.old) result reader.new }
{
    let symbol = reader.ahead();
    if limit == 0 {
        return Err(reader.refuse(!symbol.is(Symbol::End)));
    }
    if !symbol.is(Symbol::OpenBracket) {
        return Ok(Measured {
            height: 1,
            tree: Place::Plain { name },
        });
    }
    let (first_at, first) = index(alloc, reader, limit - 1)?;
    if !reader.ahead().is(Symbol::OpenBracket) {
        return Ok(Measured {
            height: 1 + first.height,
            tree: Place::index(alloc, name, first_at, first.tree)?,
        });
    }
    let (second_at, second) = index(alloc, reader, limit - 1)?;
    Ok(Measured {
        height: 1 + first.height.max(second.height),
        tree: Place::index2(alloc, name, first_at, first.tree, second_at, second.tree)?,
    })
}

/// A name with none to two indices, of at most this height.
#[cycle(expressions)]
#[tactic(auto, using(crate::proofs::ReaderEquations::named_none, crate::proofs::ReaderEquations::named_some))]
pub(crate) fn named(
    alloc: Global,
    reader: &mut Reader<'_>,
    limit: u32,
) -> Result<Measured<Place>, ReadRefusal>
    ensures { Measures depth_of_place limit (named_at limit reader.old) result reader.new }
{
    if limit == 0 {
        return Err(reader.refuse(reader.ahead().is(Symbol::Name)));
    }
    let name = reader.name(alloc)?;
    indices(alloc, reader, name, limit)
}

/// `* name`, whose `*` has to be ahead, of at most this height (C90, 6.3.3.2).
#[tactic(auto, using(crate::proofs::ReaderEquations::indirection_none, crate::proofs::ReaderEquations::indirection_some))]
pub fn indirection(
    alloc: Global,
    reader: &mut Reader<'_>,
    limit: u32,
) -> Result<Measured<Place>, ReadRefusal>
    ensures { Measures depth_of_place limit (indirection_at limit reader.old) result reader.new }
{
    if limit == 0 {
        return Err(reader.refuse(reader.ahead().is(Symbol::Star)));
    }
    let star_at = reader.take(Symbol::Star)?;
    let name = reader.name(alloc)?;
    Ok(Measured {
        height: 1,
        tree: Place::Deref { star_at, name },
    })
}

/// A place of any sort, of at most this height.
#[tactic(auto, unfolding(right_reading::specs::ReadExpressions::place_at))]
pub fn place(
    alloc: Global,
    reader: &mut Reader<'_>,
    limit: u32,
) -> Result<Measured<Place>, ReadRefusal>
    ensures { Measures depth_of_place limit (place_at limit reader.old) result reader.new }
{
    if reader.ahead().is(Symbol::Star) {
        indirection(alloc, reader, limit)
    } else {
        named(alloc, reader, limit)
    }
}
