// The calls among the functions that a source defines.

ghost use Rattle.std.specs.Prelude.{◌≡◌, IfOk};
ghost use Rattle.call_structure.specs.Calls.{calls_among, places_of, place_of, called_by};

use crate::definitions::definition_at;
use c_typed::Typed;
use call_graph::CallGraph;
use called_functions::functions_called_in;
use indexmap::IndexMap;
use sat_base::{At, Memory};
use sqlite_items::Items;
use std::alloc::Global;

/// What each defined function calls, where a function is its place in the order of the definitions.
pub(crate) fn calls_among(
    alloc: Global,
    typed: &Typed,
    definitions: &IndexMap<u32, At>,
) -> Result<CallGraph, Memory>
    ensures { IfOk result (λ graph. graph ≡ calls_among typed.now definitions.now.entries) }
{
    let mut graph = CallGraph::new(alloc);
    for place in 0..definitions.len() {
        let (number, _) = definition_at(definitions, place);
        let called = called_by(alloc, typed, number)?;
        graph.push(places_of(alloc, definitions, called.as_slice())?)?;
    }
    Ok(graph)
}

/// The functions that a function calls, by their numbers, in the order of the calls.
fn called_by(alloc: Global, typed: &Typed, number: u32) -> Result<Items<u32>, Memory>
    ensures { IfOk result (λ called. called ≡ called_by typed.now number) }
{
    match typed.functions.get(number as usize) {
        Some(function) => functions_called_in(alloc, function),
        None => Ok(Items::new(alloc)),
    }
}

/// The places of these functions; a function without a definition has none.
fn places_of(
    alloc: Global,
    definitions: &IndexMap<u32, At>,
    called: &[u32],
) -> Result<Items<usize>, Memory>
    ensures { IfOk result (λ places. places ≡ places_of definitions.now.entries called.now) }
{
    let mut places = Items::new(alloc);
    for number in called {
        match place_of(definitions, *number) {
            Some(place) => places.push(place)?,
            None => {}
        }
    }
    Ok(places)
}

/// The place of a function in the order of the definitions, if it has one.
fn place_of(definitions: &IndexMap<u32, At>, number: u32) -> Option<usize>
    ensures { result ≡ place_of definitions.now.entries number }
{
    definitions.get_index_of(&number)
}
