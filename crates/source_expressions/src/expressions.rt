// Expressions, places, arguments and calls.

ghost use Rattle.std.specs.Prelude.{◌≡◌, IfOk, FitsSigned, map, []};
ghost use Rattle.std.specs.Int.{w32};
ghost use Rattle.source_runs.specs.Follows.{Follows};
ghost use Rattle.source_runs.specs.Runs.{gathered};
ghost use Rattle.source_runs.specs.Calls.{first_number};
ghost use Rattle.typed_meaning.specs.Expressions.{callee_meaning, site_at};
ghost use Rattle.source_expressions.specs.Does.{Serves, IsPredefined, setting, called, expression_at, place_at, argument_at, call_at};

use crate::here::Here;
use c_typed::{Callee, TypedArg, TypedCall, TypedExpr, TypedExprKind, TypedPlace};
use source_runs::{
    Access, Given, Halt, Location, RunState, both, convert, decided, holds, in_row, row_of,
    table_numbered, unary,
};
use sqlite_items::Items;
use weight_table::Counted;

/// The number of a site; 0 where there is none.
pub fn site_at(site: Option<u32>) -> u32
    ensures { result ≡ site_at site }
{
    site.unwrap_or(0)
}

/// The value of an expression. `calls` calls the functions of the source.
#[cycle(expression)]
pub fn expression<F: Fn(&mut RunState, usize, Items<Given>) -> Result<i32, Halt>>(
    calls: &F,
    here: &Here<'_>,
    state: &mut RunState,
    e: &TypedExpr,
) -> Result<i32, Halt>
    requires { Serves (F.pre calls.now) (F.post calls.now) (called here.now) }
    ensures follows { Follows (expression_at here.now e.now) result state.old state.new }
    ensures fits { IfOk result (FitsSigned w32) }
{
    match &e.kind {
        TypedExprKind::Int(value) => Ok(*value),
        TypedExprKind::Read(place) => {
            let at = located(calls, here, state, place.get(), Access::Element)?;
            Ok(state.number_at(at))
        }
        TypedExprKind::ReadOverflow { .. } => Ok(state.overflow()),
        TypedExprKind::Unary {
            mark,
            site,
            part,
            ..
        } => {
            let x = expression(calls, here, state, part.get())?;
            unary(*mark, site_at(*site), x)
        }
        TypedExprKind::Binary {
            mark,
            site,
            left,
            right,
            ..
        } => {
            let x = expression(calls, here, state, left.get())?;
            if let Some(value) = decided(*mark, x) {
                return Ok(value);
            }
            let y = expression(calls, here, state, right.get())?;
            both(*mark, site_at(*site), x, y)
        }
        TypedExprKind::Cast { width, part } => {
            let x = expression(calls, here, state, part.get())?;
            Ok(convert(*width, x))
        }
        TypedExprKind::Convert { width, part } => {
            let x = expression(calls, here, state, part.get())?;
            Ok(convert(*width, x))
        }
        TypedExprKind::Choose { cond, yes, no } => {
            if holds(expression(calls, here, state, cond.get())?) {
                expression(calls, here, state, yes.get())
            } else {
                expression(calls, here, state, no.get())
            }
        }
        TypedExprKind::Call(made) => call(calls, here, state, made),
    }
}

/// The element that a place names, or its address.
#[cycle(expression)]
pub fn located<F: Fn(&mut RunState, usize, Items<Given>) -> Result<i32, Halt>>(
    calls: &F,
    here: &Here<'_>,
    state: &mut RunState,
    place: &TypedPlace,
    access: Access,
) -> Result<Location, Halt>
    requires { Serves (F.pre calls.now) (F.post calls.now) (called here.now) }
    ensures { Follows (place_at here.now place.now access) result state.old state.new }
{
    match place {
        TypedPlace::Plain { object, .. } => Ok(state.named(here.shape(*object))),
        TypedPlace::Index {
            object,
            site,
            index,
            ..
        } => {
            let i = expression(calls, here, state, index.get())?;
            let shape = here.shape(*object);
            let found = state.place_of(access, shape, i);
            found.ok_or(Halt::Stopped(site_at(*site)))
        }
        TypedPlace::Index2 {
            object,
            first_site,
            first,
            second_site,
            second,
            ..
        } => {
            let shape = here.shape(*object);
            let i = expression(calls, here, state, first.get())?;
            let row = row_of(shape, i).ok_or(Halt::Stopped(site_at(*first_site)))?;
            let j = expression(calls, here, state, second.get())?;
            in_row(access, shape, row, j).ok_or(Halt::Stopped(site_at(*second_site)))
        }
        TypedPlace::Deref { site, object, .. } => {
            let found = state.pointed(here.shape(*object));
            found.ok_or(Halt::Stopped(site_at(*site)))
        }
    }
}

/// What an argument, or an initial value, gives.
#[cycle(expression)]
pub fn argument<F: Fn(&mut RunState, usize, Items<Given>) -> Result<i32, Halt>>(
    calls: &F,
    here: &Here<'_>,
    state: &mut RunState,
    arg: &TypedArg,
) -> Result<Given, Halt>
    requires { Serves (F.pre calls.now) (F.post calls.now) (called here.now) }
    ensures { Follows (argument_at here.now arg.now) result state.old state.new }
{
    match arg {
        TypedArg::Value(e) => {
            let x = expression(calls, here, state, e)?;
            Ok(Given::Number(x))
        }
        TypedArg::Address { place, .. } => {
            let to = located(calls, here, state, place, Access::Address)?;
            Ok(Given::View(to))
        }
    }
}

/// What the arguments give, from left to right.
#[cycle(expression)]
fn arguments<F: Fn(&mut RunState, usize, Items<Given>) -> Result<i32, Halt>>(
    calls: &F,
    here: &Here<'_>,
    state: &mut RunState,
    args: &[TypedArg],
) -> Result<Items<Given>, Halt>
    requires { Serves (F.pre calls.now) (F.post calls.now) (called here.now) }
    ensures { Follows (gathered [] (map (argument_at here.now) args.now)) result state.old state.new }
{
    let mut givens = Items::new(here.alloc);
    for arg in args {
        let given = argument(calls, here, state, arg)?;
        givens.push(given)?;
    }
    Ok(givens)
}

/// A call; its value, or 0 where it is void.
#[cycle(expression)]
pub fn call<F: Fn(&mut RunState, usize, Items<Given>) -> Result<i32, Halt>>(
    calls: &F,
    here: &Here<'_>,
    state: &mut RunState,
    made: &TypedCall,
) -> Result<i32, Halt>
    requires { Serves (F.pre calls.now) (F.post calls.now) (called here.now) }
    ensures follows { Follows (call_at here.now made.now) result state.old state.new }
    ensures fits { IfOk result (FitsSigned w32) }
{
    let givens = arguments(calls, here, state, made.args.as_slice())?;
    let site = site_at(made.site);
    match made.callee {
        Callee::Function(number) => calls(state, number as usize, givens),
        _ => predefined(here, state, made.callee, site, givens.as_slice()),
    }
}

/// A call of what every source has, once its arguments are evaluated.
fn predefined(
    here: &Here<'_>,
    state: &mut RunState,
    callee: Callee,
    site: u32,
    givens: &[Given],
) -> Result<i32, Halt>
    requires { IsPredefined callee }
    ensures follows { Follows (callee_meaning (setting here.now) (called here.now) callee site givens.now) result state.old state.new }
    ensures fits { IfOk result (FitsSigned w32) }
{
    let table = table_numbered(here.typed.weights);
    match callee {
        Callee::Operator(op) => return state.operator_call(table, site, op, givens),
        Callee::SampleIn => return state.take_sample().ok_or(Halt::Stopped(site)),
        Callee::SampleLeft => return Ok(state.sample_left()),
        Callee::SampleOut => state.put(first_number(givens))?,
        Callee::Move16 => state.counting(table, Counted::Move16),
        Callee::Move32 => state.counting(table, Counted::Move32),
        Callee::Logic16 => state.counting(table, Counted::Logic16),
        Callee::Logic32 => state.counting(table, Counted::Logic32),
        Callee::Test => state.counting(table, Counted::Test),
        Callee::Function(_) => {}
    }
    Ok(0)
}

/// The number that the first argument gives.
fn first_number(givens: &[Given]) -> i32
    ensures { result ≡ first_number givens.now }
{
    match givens.first() {
        Some(Given::Number(value)) => *value,
        _ => 0,
    }
}
