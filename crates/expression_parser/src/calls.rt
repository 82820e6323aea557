// Reads the arguments of calls (C90, 6.3.2.2).

ghost use Rattle.c_tree.specs.Depth.{deepest, depth_of_argument};
ghost use Rattle.expression_parser.specs.Heights.{Measures};
ghost use Rattle.right_reading.specs.ReadExpressions.{arguments_at, argument_at, listed_by, readers};

use crate::expressions::expression;
use crate::measured::Measured;
use crate::places::named;
use c_grammar::{ReadRefusal, Symbol};
use c_tree::Arg;
use sqlite_items::Items;
use std::alloc::Global;
use token_reader::Reader;

/// The arguments of a call in their brackets, each of at most this height. The height is that of the
/// highest.
#[cycle(expressions)]
#[tactic(auto, unfolding(right_reading::specs::ReadExpressions::arguments_by))]
pub fn arguments(
    alloc: Global,
    reader: &mut Reader<'_>,
    limit: u32,
) -> Result<Measured<Items<Arg>>, ReadRefusal>
    ensures { Measures (deepest depth_of_argument) limit (arguments_at limit reader.old) result reader.new }
{
    reader.take(Symbol::OpenParen)?;
    if reader.ahead().is(Symbol::CloseParen) {
        reader.pass();
        return Ok(Measured {
            height: 0,
            tree: Items::new(alloc),
        });
    }
    let args = listed_arguments(alloc, reader, limit)?;
    reader.take(Symbol::CloseParen)?;
    Ok(args)
}

/// One argument or more, separated by commas.
#[cycle(expressions)]
#[tactic(auto, using(crate::proofs::HeightEquations::one_more_argument), unfolding(right_reading::specs::ReadExpressions::listed_by, right_reading::specs::Lists::many))]
fn listed_arguments(
    alloc: Global,
    reader: &mut Reader<'_>,
    limit: u32,
) -> Result<Measured<Items<Arg>>, ReadRefusal>
    ensures { Measures (deepest depth_of_argument) limit (listed_by (readers limit) reader.old) result reader.new }
{
    let first = argument(alloc, reader, limit)?;
    let mut height = first.height;
    let mut args = Items::new(alloc);
    args.push(first.tree)?;
    for _turn in 0..reader.turns() {
        if !reader.pass_if(Symbol::Comma) {
            return Ok(Measured { tree: args, height });
        }
        let next = argument(alloc, reader, limit)?;
        height = height.max(next.height);
        args.push(next.tree)?;
    }
    Ok(Measured { tree: args, height })
}

/// `& place` or an expression, of at most this height.
#[cycle(expressions)]
#[tactic(auto, unfolding(right_reading::specs::ReadExpressions::argument_by))]
pub fn argument(
    alloc: Global,
    reader: &mut Reader<'_>,
    limit: u32,
) -> Result<Measured<Arg>, ReadRefusal>
    ensures { Measures depth_of_argument limit (argument_at limit reader.old) result reader.new }
{
    if !reader.ahead().is(Symbol::And) {
        let value = expression(alloc, reader, limit)?;
        return Ok(Measured {
            height: value.height,
            tree: Arg::Value(value.tree),
        });
    }
    let at = reader.pass();
    let place = named(alloc, reader, limit)?;
    Ok(Measured {
        height: place.height,
        tree: Arg::Address {
            at,
            place: place.tree,
        },
    })
}
