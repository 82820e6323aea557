// Functions of the source.

ghost use Rattle.std.specs.Prelude.{◌≡◌, IfOk, FitsSigned};
ghost use Rattle.std.specs.Int.{w32};
ghost use Rattle.std.specs.List.{position};
ghost use Rattle.source_runs.specs.Follows.{Follows};
ghost use Rattle.typed_meaning.specs.Observed.{returned, is_main};
ghost use Rattle.source_expressions.specs.Does.{Serves, called};
ghost use Rattle.source_meaning.specs.Bodies.{body_at};

use c_typed::{TypedBlock, TypedFunction};
use sat_base::Width;
use source_expressions::Here;
use source_runs::{Flow, Given, Halt, RunState, convert};
use source_statements::block;
use sqlite_items::Items;

/// What a function gives where its body is left so; 0 where it gives nothing.
fn returned(gives: Option<Width>, flow: Flow) -> i32
    ensures { result ≡ returned gives flow }
{
    match (gives, flow) {
        (Some(width), Flow::Return(value)) => convert(width, value),
        _ => 0,
    }
}

/// What the body of a function does; a function without one is left at once.
fn body<F: Fn(&mut RunState, usize, Items<Given>) -> Result<i32, Halt>>(
    calls: &F,
    here: &Here<'_>,
    state: &mut RunState,
    body: &Option<TypedBlock>,
) -> Result<Flow, Halt>
    requires { Serves (F.pre calls.now) (F.post calls.now) (called here.now) }
    ensures { Follows (body_at here.now body.now) result state.old state.new }
{
    match body {
        Some(body) => block(calls, here, state, body),
        None => Ok(Flow::Return(0)),
    }
}

/// A call of the function of this number; 0 where there is none, or where no further function may be entered.
pub fn function(
    here: &Here<'_>,
    state: &mut RunState,
    number: usize,
    givens: Items<Given>,
) -> Result<i32, Halt>
    ensures follows { Follows (called here.now number givens) result state.old state.new }
    ensures fits { IfOk result (FitsSigned w32) }
{
    if here.depth == 0 {
        return Ok(0);
    }
    let Some(entered) = here.typed.functions.get(number) else {
        return Ok(0);
    };
    let params = entered.params.as_slice();
    state.give_all(here.alloc, here.objects(), params, givens.as_slice())?;
    let below = Here {
        depth: here.depth - 1,
        ..*here
    };
    let calls = |state: &mut RunState, number: usize, givens: Items<Given>| -> Result<i32, Halt>
        ensures follows { Follows (called below.entry number givens) result state.old state.new }
        ensures fits { IfOk result (FitsSigned w32) }
    { function(&below, state, number, givens) };
    let flow = body(&calls, &below, state, &entered.body)?;
    Ok(returned(entered.gives, flow))
}

/// The number of `main`: the first function of that name that is defined.
pub fn main_of(functions: &[TypedFunction]) -> Option<usize>
    ensures { result ≡ position is_main functions.now }
{
    functions.iter().position(|f| f.name.as_bytes() == b"main".as_slice() && f.body.is_some())
}
