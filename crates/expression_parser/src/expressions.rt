// Reads expressions (C90, 6.3).

ghost use Rattle.std.specs.Prelude.{◌≡◌, ◌≤◌, ◌-◌, ◌+◌, ◌<◌, ◌^◌, length};
ghost use Rattle.c_tree.specs.declared.expression.ExprKind.TheVariants as kinds;
ghost use Rattle.c_tree.specs.Depth.{depth_of_expression};
ghost use Rattle.c_grammar.specs.declared.symbol.Symbol.TheVariants as symbols;
ghost use Rattle.expression_parser.specs.Heights.{Measures, IsMeasured};
ghost use Rattle.right_reading.specs.ReadExpressions.{expression_at, branches_by, chain_at, unary_at, marks_at, indirection_at, bracketed_by, named_value_by, reading, readers, ranked, unmarked};
ghost use Rattle.c_grammar.specs.Spots.{here};
ghost use Rattle.right_reading.specs.Stream.{ahead, rest, mapped, number_at};
ghost use Rattle.c_grammar.specs.Symbols.{binary_mark};

use crate::calls::arguments;
use crate::measured::Measured;
use crate::places::{indices, indirection};
use crate::type_name::type_;
use c_grammar::{
    ReadRefusal, Symbol, begins_expression, begins_type, binary_mark, rank_of, unary_mark,
};
use c_tree::{BinaryMark, Call, Expr, ExprKind};
use std::alloc::Global;
use token_reader::Reader;

/// The greatest rank of the marks between two operands.
const RANKS: u32 = 9;

/// The mark of this rank that the symbol is.
fn mark_of_rank(symbol: Symbol, rank: u32) -> Option<BinaryMark>
    ensures { result ≡ ranked rank (binary_mark symbol) }
{
    match binary_mark(symbol) {
        Some(mark) if rank_of(mark) == rank => Some(mark),
        _ => None,
    }
}

/// An expression (C90, 6.3.15), of at most this height.
#[cycle(expressions)]
#[tactic(auto, using(crate::proofs::ReaderEquations::expression_steps), unfolding(right_reading::specs::ReadExpressions::choice_by))]
pub fn expression(
    alloc: Global,
    reader: &mut Reader<'_>,
    limit: u32,
) -> Result<Measured<Expr>, ReadRefusal>
    ensures { Measures depth_of_expression limit (expression_at limit reader.old) result reader.new }
{
    let cond = ranked(alloc, reader, RANKS, limit)?;
    if !reader.ahead().is(Symbol::Question) {
        return Ok(cond);
    }
    if cond.height >= limit {
        return Err(reader.too_deep());
    }
    reader.pass();
    branches(alloc, reader, cond, limit - 1)
}

/// The choice of this condition, from what follows its `?` on. Its other parts have at most this height.
#[cycle(expressions)]
#[tactic(auto, using(crate::proofs::HeightEquations::choose_depth))]
fn branches(
    alloc: Global,
    reader: &mut Reader<'_>,
    cond: Measured<Expr>,
    limit: u32,
) -> Result<Measured<Expr>, ReadRefusal>
    requires height { IsMeasured depth_of_expression limit cond }
    requires limit { limit + 1 < 2 ^ 32 }
    ensures { Measures depth_of_expression (limit + 1) (branches_by (expression_at limit) cond.tree reader.old) result reader.new }
{
    let yes = expression(alloc, reader, limit)?;
    reader.take(Symbol::Colon)?;
    let no = expression(alloc, reader, limit)?;
    Ok(Measured {
        height: 1 + cond.height.max(yes.height).max(no.height),
        tree: Expr::choose(alloc, cond.tree, yes.tree, no.tree)?,
    })
}

/// An expression whose marks outside of brackets have at most this rank (C90, 6.3.5 to 6.3.14).
#[cycle(expressions)]
#[tactic(auto, using(crate::proofs::ReaderEquations::chain_none, crate::proofs::ReaderEquations::chain_some))]
fn ranked(
    alloc: Global,
    reader: &mut Reader<'_>,
    rank: u32,
    limit: u32,
) -> Result<Measured<Expr>, ReadRefusal>
    requires { rank ≤ 9 }
    ensures { Measures depth_of_expression limit (chain_at limit rank reader.old) result reader.new }
{
    if rank == 0 {
        return unary(alloc, reader, limit);
    }
    let first = ranked(alloc, reader, rank - 1, limit)?;
    chain(alloc, reader, rank, first, limit)
}

/// The marks of this rank that follow the first operand, each with its other operand, from left to right.
#[cycle(expressions)]
#[tactic(auto, using(crate::proofs::HeightEquations::binary_depth), unfolding(right_reading::specs::ReadExpressions::marks_at))]
fn chain(
    alloc: Global,
    reader: &mut Reader<'_>,
    rank: u32,
    first: Measured<Expr>,
    limit: u32,
) -> Result<Measured<Expr>, ReadRefusal>
    requires rank { (1 ≤ rank) × (rank ≤ 9) }
    requires height { IsMeasured depth_of_expression limit first }
    ensures { Measures depth_of_expression limit (marks_at (length reader.old) rank limit (chain_at (limit - 1) (rank - 1)) first.tree reader.old) result reader.new }
{
    let mut left = first;
    for _turn in 0..reader.left() {
        let Some(mark) = mark_of_rank(reader.ahead(), rank) else {
            return Ok(left);
        };
        if left.height >= limit {
            return Err(reader.too_deep());
        }
        let mark_at = reader.pass();
        let right = ranked(alloc, reader, rank - 1, limit - 1)?;
        left = Measured {
            height: 1 + left.height.max(right.height),
            tree: Expr::binary(alloc, mark, mark_at, left.tree, right.tree)?,
        };
    }
    Ok(left)
}

/// An operand with the marks before it (C90, 6.3.1 to 6.3.4).
#[cycle(expressions)]
#[tactic(auto, using(crate::proofs::ReaderEquations::unary_none, crate::proofs::ReaderEquations::unary_some, crate::proofs::HeightEquations::unary_depth), unfolding(right_reading::specs::ReadExpressions::unary_by))]
fn unary(alloc: Global, reader: &mut Reader<'_>, limit: u32) -> Result<Measured<Expr>, ReadRefusal>
    ensures { Measures depth_of_expression limit (unary_at limit reader.old) result reader.new }
{
    let symbol = reader.ahead();
    if limit == 0 {
        return Err(reader.refuse(begins_expression(symbol)));
    }
    if let Some(mark) = unary_mark(symbol) {
        let mark_at = reader.pass();
        let part = unary(alloc, reader, limit - 1)?;
        return Ok(Measured {
            height: 1 + part.height,
            tree: Expr::unary(alloc, mark, mark_at, part.tree)?,
        });
    }
    match symbol {
        Symbol::OpenParen => bracketed(alloc, reader, limit - 1),
        Symbol::Name => named_value(alloc, reader, limit - 1),
        Symbol::Star => indirect_value(alloc, reader, limit - 1),
        Symbol::Overflow => Ok(overflow(reader)),
        _ => integer(reader),
    }
}

/// What begins with `(`: a cast, or an expression in brackets. Its part has at most this height.
#[cycle(expressions)]
#[tactic(auto, using(crate::proofs::HeightEquations::cast_depth), unfolding(right_reading::specs::ReadExpressions::bracketed_by))]
fn bracketed(
    alloc: Global,
    reader: &mut Reader<'_>,
    limit: u32,
) -> Result<Measured<Expr>, ReadRefusal>
    requires ahead { ahead reader.now ≡ symbols.OpenParen }
    requires limit { limit + 1 < 2 ^ 32 }
    ensures { Measures depth_of_expression (limit + 1) (bracketed_by (readers limit) (here reader.old) (rest reader.old)) result reader.new }
{
    let at = reader.take(Symbol::OpenParen)?;
    if begins_type(reader.ahead()) {
        let (_, width) = type_(reader)?;
        reader.take(Symbol::CloseParen)?;
        let part = unary(alloc, reader, limit)?;
        return Ok(Measured {
            height: 1 + part.height,
            tree: Expr::cast(alloc, at, width, part.tree)?,
        });
    }
    let inner = expression(alloc, reader, limit)?;
    reader.take(Symbol::CloseParen)?;
    Ok(Measured {
        height: 1 + inner.height,
        tree: inner.tree.in_brackets(at),
    })
}

/// What begins with a name: a call, or what reads a place. Its parts have at most this height.
#[cycle(expressions)]
#[tactic(auto, using(crate::proofs::HeightEquations::call_depth, crate::proofs::HeightEquations::read_depth), unfolding(right_reading::specs::ReadExpressions::named_by))]
fn named_value(
    alloc: Global,
    reader: &mut Reader<'_>,
    limit: u32,
) -> Result<Measured<Expr>, ReadRefusal>
    requires { limit + 1 < 2 ^ 32 }
    ensures { Measures depth_of_expression (limit + 1) (named_value_by (readers limit) reader.old) result reader.new }
{
    let name = reader.name(alloc)?;
    if reader.ahead().is(Symbol::OpenParen) {
        let args = arguments(alloc, reader, limit)?;
        return Ok(Measured {
            height: 1 + args.height,
            tree: Expr::call(Call {
                name,
                args: args.tree,
            }),
        });
    }
    let place = indices(alloc, reader, name, limit)?;
    Ok(Measured {
        height: 1 + place.height,
        tree: Expr::read(alloc, place.tree)?,
    })
}

/// What reads `* name`, which has at most this height.
#[tactic(auto, using(crate::proofs::HeightEquations::read_depth))]
fn indirect_value(
    alloc: Global,
    reader: &mut Reader<'_>,
    limit: u32,
) -> Result<Measured<Expr>, ReadRefusal>
    requires { limit + 1 < 2 ^ 32 }
    ensures { Measures depth_of_expression (limit + 1) (mapped reading (indirection_at limit) reader.old) result reader.new }
{
    let place = indirection(alloc, reader, limit)?;
    Ok(Measured {
        height: 1 + place.height,
        tree: Expr::read(alloc, place.tree)?,
    })
}

/// The value of the word `Overflow`, which is ahead.
fn overflow(reader: &mut Reader<'_>) -> Measured<Expr>
    requires { ahead reader.now ≡ symbols.Overflow }
    ensures tree { result.tree ≡ unmarked (here reader.old) (kinds.ReadOverflow (here reader.old)) }
    ensures rest { reader.new ≡ rest reader.old }
    ensures height { result.height ≡ 1 }
{
    let word_at = reader.pass();
    Measured {
        height: 1,
        tree: Expr::new(word_at, ExprKind::ReadOverflow { word_at }),
    }
}

/// The number that has to be ahead.
fn integer(reader: &mut Reader<'_>) -> Result<Measured<Expr>, ReadRefusal>
    ensures { Measures depth_of_expression 1 (mapped (λ x. unmarked x.0 (kinds.Int x.1)) number_at reader.old) result reader.new }
{
    let (at, value) = reader.number()?;
    Ok(Measured {
        height: 1,
        tree: Expr::new(at, ExprKind::Int(value)),
    })
}
