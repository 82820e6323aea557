// Assignments, steps, calls as statements, and the starts of objects.

ghost use Rattle.std.specs.Prelude.{◌≡◌, map, IfOk, FitsSigned};
ghost use Rattle.std.specs.Int.{w32};
ghost use Rattle.source_runs.specs.Follows.{Follows, Answers};
ghost use Rattle.source_runs.specs.Marks.{assigned};
ghost use Rattle.source_runs.specs.Runs.{all_of};
ghost use Rattle.typed_meaning.specs.Statements.{step_mark};
ghost use Rattle.source_expressions.specs.Does.{Serves, called, simple_at, start_at};

use c_tree::AssignMark;
use c_typed::{Start, TypedSimple};
use source_expressions::{Here, argument, call, expression, located, site_at};
use source_runs::{Access, Given, Halt, RunState, assigned};
use sqlite_items::Items;

/// `++` adds 1, and `--` subtracts 1.
fn step_mark(up: bool) -> AssignMark
    ensures { result ≡ step_mark up }
{
    if up {
        AssignMark::Plus
    } else {
        AssignMark::Minus
    }
}

/// What an assignment writes.
fn outcome(mark: AssignMark, site: u32, old: i32, value: i32) -> Result<i32, Halt>
    ensures answers { Answers (assigned mark site old value) result }
    ensures fits { IfOk result (FitsSigned w32) }
{
    assigned(mark, site, old, value)
}

/// An assignment, a step, or a call whose value is not used.
pub fn simple<F: Fn(&mut RunState, usize, Items<Given>) -> Result<i32, Halt>>(
    calls: &F,
    here: &Here<'_>,
    state: &mut RunState,
    done: &TypedSimple,
) -> Result<(), Halt>
    requires { Serves (F.pre calls.now) (F.post calls.now) (called here.now) }
    ensures { Follows (simple_at here.now done.now) result state.old state.new }
{
    match done {
        TypedSimple::Assign {
            place,
            mark,
            site,
            value,
            ..
        } => {
            let to = located(calls, here, state, place.get(), Access::Element)?;
            let old = state.number_at(to);
            let right = expression(calls, here, state, value.get())?;
            let new = outcome(*mark, site_at(*site), old, right)?;
            state.write(here.shape(to.object).width, to, new);
        }
        TypedSimple::Step {
            place,
            up,
            site,
            ..
        } => {
            let to = located(calls, here, state, place.get(), Access::Element)?;
            let old = state.number_at(to);
            let new = outcome(step_mark(*up), site_at(*site), old, 1)?;
            state.write(here.shape(to.object).width, to, new);
        }
        TypedSimple::SetOverflow { value, .. } => {
            let x = expression(calls, here, state, value.get())?;
            state.set_overflow(x);
        }
        TypedSimple::Call(made) => {
            call(calls, here, state, made)?;
        }
    }
    Ok(())
}

/// One after the other.
pub fn all_simples<F: Fn(&mut RunState, usize, Items<Given>) -> Result<i32, Halt>>(
    calls: &F,
    here: &Here<'_>,
    state: &mut RunState,
    list: &[TypedSimple],
) -> Result<(), Halt>
    requires { Serves (F.pre calls.now) (F.post calls.now) (called here.now) }
    ensures { Follows (all_of (map (simple_at here.now) list.now)) result state.old state.new }
{
    for done in list {
        simple(calls, here, state, done)?;
    }
    Ok(())
}

/// The start of an object of a block.
fn begin<F: Fn(&mut RunState, usize, Items<Given>) -> Result<i32, Halt>>(
    calls: &F,
    here: &Here<'_>,
    state: &mut RunState,
    begun: &Start,
) -> Result<(), Halt>
    requires { Serves (F.pre calls.now) (F.post calls.now) (called here.now) }
    ensures { Follows (start_at here.now begun.now) result state.old state.new }
{
    match &begun.value {
        Some(value) => {
            let given = argument(calls, here, state, value)?;
            state.give(here.alloc, here.shape(begun.object), given)?;
        }
        None => state.open(here.alloc, here.objects(), begun.object)?,
    }
    Ok(())
}

/// The starts of the objects of a block, one after the other.
pub fn starts<F: Fn(&mut RunState, usize, Items<Given>) -> Result<i32, Halt>>(
    calls: &F,
    here: &Here<'_>,
    state: &mut RunState,
    list: &[Start],
) -> Result<(), Halt>
    requires { Serves (F.pre calls.now) (F.post calls.now) (called here.now) }
    ensures { Follows (all_of (map (start_at here.now) list.now)) result state.old state.new }
{
    for object in list {
        begin(calls, here, state, object)?;
    }
    Ok(())
}
