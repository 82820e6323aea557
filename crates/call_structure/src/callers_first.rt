// The order of the functions of a source.

ghost use Rattle.std.specs.Prelude.{◌≡◌, IfOk, IfErr};
ghost use Rattle.call_structure.specs.Orders.{IsCallersFirst, IsCause, numbers_at, Tells};

use crate::definitions::{definition_at, definitions};
use crate::functions::Order;
use crate::graph::calls_among;
use crate::refusal::OrderRefusal;
use c_typed::Typed;
use indexmap::IndexMap;
use sat_base::{At, Memory};
use sqlite_items::Items;
use std::alloc::Global;

/// The functions that a source defines, callers first.
///
/// `Recursive` comes exactly where a function reaches itself by calls.
pub fn order(alloc: Global, typed: &Typed) -> Result<Order, OrderRefusal>
    ensures order { IfOk result (λ order. IsCallersFirst typed.now order.functions) }
    ensures refused { IfErr result (IsCause typed.now) }
{
    let definitions = definitions(alloc, typed)?;
    let graph = calls_among(alloc, typed, &definitions)?;
    match call_graph::order(alloc, &graph) {
        Ok(places) => {
            let functions = numbers_at(alloc, &definitions, places.as_slice())?;
            Ok(Order { functions })
        }
        Err(call_graph::OrderRefusal::Recursive { cycle }) => {
            Err(recursive(alloc, &definitions, cycle.as_slice())?)
        }
        Err(call_graph::OrderRefusal::Memory) => Err(OrderRefusal::Memory),
    }
}

/// The numbers of the functions at these places in the order of the definitions.
fn numbers_at(
    alloc: Global,
    definitions: &IndexMap<u32, At>,
    places: &[usize],
) -> Result<Items<u32>, Memory>
    ensures { IfOk result (λ numbers. numbers ≡ numbers_at definitions.now.entries places.now) }
{
    let numbers = places
        .iter()
        .map(|place| definition_at(definitions, *place).0)
        .collect(alloc)?;
    Ok(Items::from_vec(numbers))
}

/// The refusal for a cycle, which is told at its first function's definition.
fn recursive(
    alloc: Global,
    definitions: &IndexMap<u32, At>,
    places: &[usize],
) -> Result<OrderRefusal, Memory>
    ensures { IfOk result (λ refusal. Tells definitions.now.entries places.now refusal) }
{
    let cycle = numbers_at(alloc, definitions, places)?;
    let first = match places.first() {
        Some(first) => *first,
        None => 0,
    };
    let (_, name) = definition_at(definitions, first);
    Ok(OrderRefusal::Recursive {
        pos: name.pos,
        cycle,
    })
}
