// Statements and blocks.

ghost use Rattle.std.specs.Prelude.{◌≡◌, IfOk, FitsSigned};
ghost use Rattle.std.specs.Int.{w32};
ghost use Rattle.std.specs.Option.{option_copied};
ghost use Rattle.source_runs.specs.Follows.{Follows};
ghost use Rattle.source_expressions.specs.Does.{Serves, called, statement_at, block_at};
ghost use Rattle.source_statements.specs.Loops.{tested_at, loop_at, turns_at};

use c_typed::{TypedBlock, TypedExpr, TypedSimple, TypedStmt};
use source_expressions::{Here, expression};
use source_runs::{Flow, Given, Halt, RunState, holds};
use source_simples::{all_simples, simple, starts};
use sqlite_items::{Boxed, Items};

/// What follows the body in each turn of a loop: the last part of a `for`, and the condition.
#[derive(Clone, Copy)]
pub struct Turn<'a> {
    /// The last part of a `for`.
    pub last: &'a [TypedSimple],
    /// The condition; a missing one is 1.
    pub condition: Option<&'a TypedExpr>,
}

/// The condition, where one is written.
fn written(cond: &Option<Boxed<TypedExpr>>) -> Option<&TypedExpr>
    ensures { option_copied result ≡ cond.now }
{
    match cond {
        Some(cond) => Some(cond.get()),
        None => None,
    }
}

/// The value of the condition of a loop.
fn condition<F: Fn(&mut RunState, usize, Items<Given>) -> Result<i32, Halt>>(
    calls: &F,
    here: &Here<'_>,
    state: &mut RunState,
    turn: Turn<'_>,
) -> Result<i32, Halt>
    requires { Serves (F.pre calls.now) (F.post calls.now) (called here.now) }
    ensures follows { Follows (tested_at here.now turn.entry) result state.old state.new }
    ensures fits { IfOk result (FitsSigned w32) }
{
    match turn.condition {
        Some(tested) => expression(calls, here, state, tested),
        None => Ok(1),
    }
}

/// How the statement is left.
#[cycle(statement)]
pub fn statement<F: Fn(&mut RunState, usize, Items<Given>) -> Result<i32, Halt>>(
    calls: &F,
    here: &Here<'_>,
    state: &mut RunState,
    stmt: &TypedStmt,
) -> Result<Flow, Halt>
    requires { Serves (F.pre calls.now) (F.post calls.now) (called here.now) }
    ensures { Follows (statement_at here.now stmt.now) result state.old state.new }
{
    match stmt {
        TypedStmt::Empty { .. } => Ok(Flow::Normal),
        TypedStmt::Block(inner) => block(calls, here, state, inner),
        TypedStmt::Simple(done) => {
            simple(calls, here, state, done)?;
            Ok(Flow::Normal)
        }
        TypedStmt::If { cond, yes, no, .. } => {
            if holds(expression(calls, here, state, cond.get())?) {
                return statement(calls, here, state, yes.get());
            }
            match no {
                Some(no) => statement(calls, here, state, no.get()),
                None => Ok(Flow::Normal),
            }
        }
        TypedStmt::While { cond, body, .. } => {
            let turn = Turn {
                last: &[],
                condition: Some(cond.get()),
            };
            looping(calls, here, state, body.get(), turn)
        }
        TypedStmt::Do { body, cond, .. } => {
            let turn = Turn {
                last: &[],
                condition: Some(cond.get()),
            };
            turns(calls, here, state, body.get(), turn)
        }
        TypedStmt::For {
            first,
            cond,
            last,
            body,
            ..
        } => {
            all_simples(calls, here, state, first.as_slice())?;
            let turn = Turn {
                last: last.as_slice(),
                condition: written(cond),
            };
            looping(calls, here, state, body.get(), turn)
        }
        TypedStmt::Break { .. } => Ok(Flow::Break),
        TypedStmt::Continue { .. } => Ok(Flow::Continue),
        TypedStmt::Return { value, .. } => match value {
            Some(value) => {
                let x = expression(calls, here, state, value.get())?;
                Ok(Flow::Return(x))
            }
            None => Ok(Flow::Return(0)),
        },
    }
}

/// How the block is left: its objects start, and then come its statements.
#[cycle(statement)]
pub fn block<F: Fn(&mut RunState, usize, Items<Given>) -> Result<i32, Halt>>(
    calls: &F,
    here: &Here<'_>,
    state: &mut RunState,
    inner: &TypedBlock,
) -> Result<Flow, Halt>
    requires { Serves (F.pre calls.now) (F.post calls.now) (called here.now) }
    ensures { Follows (block_at here.now inner.now) result state.old state.new }
{
    starts(calls, here, state, inner.objects.as_slice())?;
    let stmts = inner.stmts.as_slice();
    for stmt in stmts {
        match statement(calls, here, state, stmt)? {
            Flow::Normal => {}
            left => return Ok(left),
        }
    }
    Ok(Flow::Normal)
}

/// A loop that tests its condition before the first turn.
#[cycle(statement)]
fn looping<F: Fn(&mut RunState, usize, Items<Given>) -> Result<i32, Halt>>(
    calls: &F,
    here: &Here<'_>,
    state: &mut RunState,
    body: &TypedStmt,
    turn: Turn<'_>,
) -> Result<Flow, Halt>
    requires { Serves (F.pre calls.now) (F.post calls.now) (called here.now) }
    ensures { Follows (loop_at here.now turn.entry body.now) result state.old state.new }
{
    if holds(condition(calls, here, state, turn)?) {
        turns(calls, here, state, body, turn)
    } else {
        Ok(Flow::Normal)
    }
}

/// The turns of a loop, of which the first begins at once.
#[cycle(statement)]
fn turns<F: Fn(&mut RunState, usize, Items<Given>) -> Result<i32, Halt>>(
    calls: &F,
    here: &Here<'_>,
    state: &mut RunState,
    body: &TypedStmt,
    turn: Turn<'_>,
) -> Result<Flow, Halt>
    requires { Serves (F.pre calls.now) (F.post calls.now) (called here.now) }
    ensures { Follows (turns_at here.now turn.entry body.now) result state.old state.new }
{
    for _begun in 0..here.turns {
        match statement(calls, here, state, body)? {
            Flow::Break => return Ok(Flow::Normal),
            Flow::Return(value) => return Ok(Flow::Return(value)),
            Flow::Normal | Flow::Continue => {}
        }
        all_simples(calls, here, state, turn.last)?;
        if !holds(condition(calls, here, state, turn)?) {
            return Ok(Flow::Normal);
        }
    }
    Err(Halt::Going)
}
