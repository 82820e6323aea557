// Reads blocks and statements.

ghost use Rattle.right_reading.specs.ReadDeclarations.{objects_at};
ghost use Rattle.right_reading.specs.ReadStatements.{block_with, block_objects_by, statements_by, statement_with, condition_at, if_by, while_by, do_by, for_by, simples_before_at, expression_before_semicolon_at, break_at, continue_at, return_at, simple_statement_at};
ghost use Rattle.token_reader.specs.Gives.{Gives};

use crate::simples::{simple, simples};
use c_grammar::{ReadRefusal, Symbol, begins_objects, begins_statement};
use c_tree::{Block, Expr, Objects, Simple, Stmt};
use declaration_parser::objects;
use expression_parser::expression;
use sqlite_items::Items;
use std::alloc::Global;
use token_reader::{Reader, many};

/// A block, whose parts have at most this height (C90, 6.6.2).
#[cycle(statements)]
#[tactic(auto, unfolding(right_reading::specs::ReadStatements::block_with, right_reading::specs::ReadStatements::block_by))]
pub fn block(alloc: Global, reader: &mut Reader<'_>, limit: u32) -> Result<Block, ReadRefusal>
    ensures { Gives (block_with objects_at limit reader.old) result reader.new }
{
    let at = reader.take(Symbol::OpenBrace)?;
    let objects = block_objects(alloc, reader, limit)?;
    let stmts = statements(alloc, reader, limit)?;
    reader.take(Symbol::CloseBrace)?;
    Ok(Block { at, objects, stmts })
}

/// The declarations at the front of a block.
#[tactic(auto, unfolding(right_reading::specs::ReadStatements::block_objects_by))]
fn block_objects(
    alloc: Global,
    reader: &mut Reader<'_>,
    limit: u32,
) -> Result<Items<Objects>, ReadRefusal>
    ensures { Gives (block_objects_by (objects_at limit) reader.old) result reader.new }
{
    let none = Items::new(alloc);
    many(
        reader,
        none,
        |symbol| begins_objects(symbol),
        |reader| objects(alloc, reader, limit),
    )
}

/// The statements up to the `}` of their block.
#[cycle(statements)]
#[tactic(auto, unfolding(right_reading::specs::ReadStatements::statements_by))]
fn statements(
    alloc: Global,
    reader: &mut Reader<'_>,
    limit: u32,
) -> Result<Items<Stmt>, ReadRefusal>
    ensures { Gives (statements_by (statement_with objects_at limit) reader.old) result reader.new }
{
    let mut stmts = Items::new(alloc);
    for _turn in 0..reader.turns() {
        if reader.ahead().is(Symbol::CloseBrace) {
            return Ok(stmts);
        }
        stmts.push(statement(alloc, reader, limit)?)?;
    }
    Ok(stmts)
}

/// A statement of at most this height.
#[cycle(statements)]
#[tactic(auto, unfolding(right_reading::specs::ReadStatements::statement_with, right_reading::specs::ReadStatements::block_with))]
fn statement(alloc: Global, reader: &mut Reader<'_>, limit: u32) -> Result<Stmt, ReadRefusal>
    ensures { Gives (statement_with objects_at limit reader.old) result reader.new }
{
    let symbol = reader.ahead();
    if limit == 0 {
        return Err(reader.refuse(begins_statement(symbol)));
    }
    let below = limit - 1;
    match symbol {
        Symbol::Semicolon => Ok(Stmt::Empty { at: reader.pass() }),
        Symbol::OpenBrace => Ok(Stmt::Block(block(alloc, reader, below)?)),
        Symbol::If => if_statement(alloc, reader, below),
        Symbol::While => while_statement(alloc, reader, below),
        Symbol::Do => do_statement(alloc, reader, below),
        Symbol::For => for_statement(alloc, reader, below),
        Symbol::Break => break_statement(reader),
        Symbol::Continue => continue_statement(reader),
        Symbol::Return => return_statement(alloc, reader, below),
        _ => simple_statement(alloc, reader, below),
    }
}

/// An expression of at most this height in brackets that belong to a statement.
#[tactic(auto, unfolding(right_reading::specs::ReadStatements::condition_at))]
fn condition(alloc: Global, reader: &mut Reader<'_>, limit: u32) -> Result<Expr, ReadRefusal>
    ensures { Gives (condition_at limit reader.old) result reader.new }
{
    reader.take(Symbol::OpenParen)?;
    let cond = expression(alloc, reader, limit)?;
    reader.take(Symbol::CloseParen)?;
    Ok(cond.tree)
}

/// `if`, whose parts have at most this height (C90, 6.6.4.1). An `else` that follows is its own.
#[cycle(statements)]
#[tactic(auto, unfolding(right_reading::specs::ReadStatements::if_by, right_reading::specs::ReadStatements::else_by))]
fn if_statement(alloc: Global, reader: &mut Reader<'_>, limit: u32) -> Result<Stmt, ReadRefusal>
    ensures { Gives (if_by limit (statement_with objects_at limit) reader.old) result reader.new }
{
    let at = reader.take(Symbol::If)?;
    let cond = condition(alloc, reader, limit)?;
    let yes = statement(alloc, reader, limit)?;
    let no = if reader.pass_if(Symbol::Else) {
        Some(statement(alloc, reader, limit)?)
    } else {
        None
    };
    Ok(Stmt::if_(alloc, at, cond, yes, no)?)
}

/// `while`, whose parts have at most this height (C90, 6.6.5.1).
#[cycle(statements)]
#[tactic(auto, unfolding(right_reading::specs::ReadStatements::while_by))]
fn while_statement(alloc: Global, reader: &mut Reader<'_>, limit: u32) -> Result<Stmt, ReadRefusal>
    ensures { Gives (while_by limit (statement_with objects_at limit) reader.old) result reader.new }
{
    let at = reader.take(Symbol::While)?;
    let cond = condition(alloc, reader, limit)?;
    let body = statement(alloc, reader, limit)?;
    Ok(Stmt::while_(alloc, at, cond, body)?)
}

/// `do`, whose parts have at most this height (C90, 6.6.5.2).
#[cycle(statements)]
#[tactic(auto, unfolding(right_reading::specs::ReadStatements::do_by))]
fn do_statement(alloc: Global, reader: &mut Reader<'_>, limit: u32) -> Result<Stmt, ReadRefusal>
    ensures { Gives (do_by limit (statement_with objects_at limit) reader.old) result reader.new }
{
    let at = reader.take(Symbol::Do)?;
    let body = statement(alloc, reader, limit)?;
    reader.take(Symbol::While)?;
    let cond = condition(alloc, reader, limit)?;
    reader.take(Symbol::Semicolon)?;
    Ok(Stmt::do_(alloc, at, body, cond)?)
}

/// `for`, whose parts have at most this height (C90, 6.6.5.3).
#[cycle(statements)]
#[tactic(auto, unfolding(right_reading::specs::ReadStatements::for_by))]
fn for_statement(alloc: Global, reader: &mut Reader<'_>, limit: u32) -> Result<Stmt, ReadRefusal>
    ensures { Gives (for_by limit (statement_with objects_at limit) reader.old) result reader.new }
{
    let at = reader.take(Symbol::For)?;
    reader.take(Symbol::OpenParen)?;
    let first = simples_before(alloc, reader, Symbol::Semicolon, limit)?;
    let cond = expression_before_semicolon(alloc, reader, limit)?;
    let last = simples_before(alloc, reader, Symbol::CloseParen, limit)?;
    let body = statement(alloc, reader, limit)?;
    Ok(Stmt::for_(alloc, at, first, cond, last, body)?)
}

/// The assignments, steps and calls before this mark, which is read too. There may be none.
#[tactic(auto, unfolding(right_reading::specs::ReadStatements::simples_before_at))]
fn simples_before(
    alloc: Global,
    reader: &mut Reader<'_>,
    mark: Symbol,
    limit: u32,
) -> Result<Items<Simple>, ReadRefusal>
    ensures { Gives (simples_before_at mark limit reader.old) result reader.new }
{
    if reader.pass_if(mark) {
        return Ok(Items::new(alloc));
    }
    let simples = simples(alloc, reader, limit)?;
    reader.take(mark)?;
    Ok(simples)
}

/// The expression of at most this height before a `;`, which is read too. There may be none.
#[tactic(auto, unfolding(right_reading::specs::ReadStatements::expression_before_semicolon_at))]
fn expression_before_semicolon(
    alloc: Global,
    reader: &mut Reader<'_>,
    limit: u32,
) -> Result<Option<Expr>, ReadRefusal>
    ensures { Gives (expression_before_semicolon_at limit reader.old) result reader.new }
{
    if reader.pass_if(Symbol::Semicolon) {
        return Ok(None);
    }
    let found = expression(alloc, reader, limit)?;
    reader.take(Symbol::Semicolon)?;
    Ok(Some(found.tree))
}

/// `break` (C90, 6.6.6.3).
#[tactic(auto, unfolding(right_reading::specs::ReadStatements::break_at))]
fn break_statement(reader: &mut Reader<'_>) -> Result<Stmt, ReadRefusal>
    ensures { Gives (break_at reader.old) result reader.new }
{
    let at = reader.take(Symbol::Break)?;
    reader.take(Symbol::Semicolon)?;
    Ok(Stmt::Break { at })
}

/// `continue` (C90, 6.6.6.2).
#[tactic(auto, unfolding(right_reading::specs::ReadStatements::continue_at))]
fn continue_statement(reader: &mut Reader<'_>) -> Result<Stmt, ReadRefusal>
    ensures { Gives (continue_at reader.old) result reader.new }
{
    let at = reader.take(Symbol::Continue)?;
    reader.take(Symbol::Semicolon)?;
    Ok(Stmt::Continue { at })
}

/// `return`, with or without a value of at most this height (C90, 6.6.6.4).
#[tactic(auto, unfolding(right_reading::specs::ReadStatements::return_at))]
fn return_statement(alloc: Global, reader: &mut Reader<'_>, limit: u32) -> Result<Stmt, ReadRefusal>
    ensures { Gives (return_at limit reader.old) result reader.new }
{
    let at = reader.take(Symbol::Return)?;
    let value = expression_before_semicolon(alloc, reader, limit)?;
    Ok(Stmt::return_(alloc, at, value)?)
}

/// An assignment, a step or a call with its `;` (C90, 6.6.3).
#[tactic(auto, unfolding(right_reading::specs::ReadStatements::simple_statement_at))]
fn simple_statement(alloc: Global, reader: &mut Reader<'_>, limit: u32) -> Result<Stmt, ReadRefusal>
    ensures { Gives (simple_statement_at limit reader.old) result reader.new }
{
    let simple = simple(alloc, reader, limit)?;
    reader.take(Symbol::Semicolon)?;
    Ok(Stmt::Simple(simple))
}
