// The functions of a tree.

ghost use Rattle.std.specs.Prelude.{◌≡◌, IfOk, map};
ghost use Rattle.ir_arena.specs.Placed.{tree_of, function_of};
ghost use Rattle.ir_expressions.specs.Building.{setting, AreShort};
ghost use Rattle.whole_trees.specs.Sources.{body_tree, function_tree, function_at, functions_along};

use crate::numbers::after;
use c_typed::{TypedBlock, TypedFunction};
use ir_arena::{IrFunction, Node};
use ir_expressions::Build;
use ir_statements::{Numbered, block};
use sat_base::{Memory, Name};
use sqlite_items::Items;

/// A function, and the number of the next cut after its own.
#[derive(Drop)]
pub struct NumberedFunction<'a> {
    pub function: IrFunction<'a>,
    pub next: u32,
}

/// A body, of which the first loop has this number.
fn body<'a>(
    build: &Build<'a, '_>,
    body: &Option<TypedBlock>,
    next: u32,
) -> Result<Numbered<'a>, Memory>
    requires { AreShort build.now.objects.now }
    ensures tree { IfOk result (λ made. tree_of made.node ≡ (body_tree (setting build.now) body.now next).tree) }
    ensures loops { IfOk result (λ made. made.next ≡ (body_tree (setting build.now) body.now next).next) }
{
    match body {
        None => Ok(Numbered::loopless(Node::Empty, next)),
        Some(body) => block(build, body, next),
    }
}

/// A function, of which the first cut has this number.
fn function<'a>(
    build: &Build<'a, '_>,
    function: &TypedFunction,
    first: u32,
) -> Result<NumberedFunction<'a>, Memory>
    requires { AreShort build.now.objects.now }
    ensures name { IfOk result (λ made. made.function.name ≡ function.now.name) }
    ensures tree { IfOk result (λ made. function_of made.function ≡ (function_tree (setting build.now) function.now first).function) }
    ensures cuts { IfOk result (λ made. made.next ≡ (function_tree (setting build.now) function.now first).next) }
{
    let body = body(build, &function.body, after(first)?)?;
    let next = after(body.next)?;
    Ok(NumberedFunction {
        function: IrFunction {
            name: Name::from_slice(build.alloc, function.name.as_bytes())?,
            gives: function.gives,
            params: Items::from_slice(build.alloc, function.params.as_slice())?,
            body: build.placed(body.node)?,
        },
        next,
    })
}

/// Those of these functions, in order. A function that is defined has a number of its own.
pub fn functions<'a>(
    build: &Build<'a, '_>,
    functions: &[TypedFunction],
    defined: &[u32],
) -> Result<Items<IrFunction<'a>>, Memory>
    requires { AreShort build.now.objects.now }
    ensures trees { IfOk result (λ made. map function_of made ≡ functions_along (setting build.now) (map (function_at functions.now) defined.now) 0) }
    ensures names { IfOk result (λ made. map (λ function. function.name) made ≡ map (λ number. (function_at functions.now number).name) defined.now) }
{
    let mut made = Items::new(build.alloc);
    let mut first = 0;
    for number in defined {
        let Some(source) = functions.get(*number as usize) else {
            return Err(Memory);
        };
        let next = function(build, source, first)?;
        made.push(next.function)?;
        first = next.next;
    }
    Ok(made)
}
