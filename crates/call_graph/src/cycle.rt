// The cycle that is told where a function reaches itself.

ghost use Rattle.std.specs.Prelude.{◌≡◌, Some, IfOk, IsTrue, ◌↔◌, MatchOption, length, min};
ghost use Rattle.call_graph.specs.Cycles.{IsFirstCycle, IsCycleFrom, IsNearest, AreDistancesTo};
ghost use Rattle.call_graph.specs.Distances.{distance_in};
ghost use Rattle.call_graph.specs.Search.{IsRecursive};

use crate::backwards::backwards;
use crate::distance::distances;
use crate::graph::CallGraph;
use sat_base::Memory;
use sqlite_items::Items;
use std::alloc::Global;

/// The cycle of the first function that reaches itself, if one does: of the least length, and each step to the first
/// function that lies one call nearer to the start. It begins and ends with that function.
pub(crate) fn first_cycle(alloc: Global, graph: &CallGraph) -> Result<Option<Items<usize>>, Memory>
    ensures { IfOk result (λ found. MatchOption found (IsRecursive graph.now → ⊥) (IsFirstCycle graph.now)) }
{
    let back = backwards(alloc, graph)?;
    for start in 0..graph.len() {
        let distances = distances(alloc, &back, start)?;
        match distance_of(&distances, start) {
            Some(length) => {
                let cycle = cycle_from(alloc, graph, &distances, start, length)?;
                return Ok(Some(cycle));
            }
            None => {}
        }
    }
    Ok(None)
}

/// The cycle from a function, of its length, where the distances are those to it.
fn cycle_from(
    alloc: Global,
    graph: &CallGraph,
    distances: &Items<Option<usize>>,
    start: usize,
    length: usize,
) -> Result<Items<usize>, Memory>
    requires distances { AreDistancesTo graph.now start distances.now }
    requires itself { distance_in distances.now start ≡ Some length }
    ensures { IfOk result (IsCycleFrom graph.now start length) }
{
    let mut cycle = Items::from_slice(alloc, &[start])?;
    let mut function = start;
    let mut left = length;
    'steps: while left > 1 {
        left -= 1;
        match nearest(graph.callees(function), distances, left) {
            Some(next) => {
                cycle.push(next)?;
                function = next;
            }
            None => unreachable!(),
        }
    }
    cycle.push(start)?;
    Ok(cycle)
}

/// The first of these functions, by their numbers, that lies at this distance.
fn nearest(called: &[usize], distances: &Items<Option<usize>>, distance: usize) -> Option<usize>
    ensures { IsNearest called.now (length called.now) distances.now distance result }
{
    let mut first = None;
    for &callee in called {
        if lies_at(distances, callee, distance) {
            first = Some(least(first, callee));
        }
    }
    first
}

fn lies_at(distances: &Items<Option<usize>>, function: usize, distance: usize) -> bool
    ensures { IsTrue result ↔ (distance_in distances.now function ≡ Some distance) }
{
    match distance_of(distances, function) {
        Some(known) => known == distance,
        None => false,
    }
}

/// The lesser of two, or the second where there is no first.
fn least(first: Option<usize>, second: usize) -> usize
    ensures { MatchOption first (result ≡ second) (λ number. result ≡ min number second) }
{
    match first {
        Some(number) => number.min(second),
        None => second,
    }
}

fn distance_of(distances: &Items<Option<usize>>, function: usize) -> Option<usize>
    ensures { result ≡ distance_in distances.now function }
{
    match distances.get(function) {
        Some(distance) => *distance,
        None => None,
    }
}
