// How many calls lead from one function to each.

ghost use Rattle.std.specs.Prelude.{◌≡◌, [], ◌∷◌, OnOk, IfOk, None, length, replicate};
ghost use Rattle.call_graph.specs.Distances.{AreDistances};
ghost use Rattle.call_graph.specs.Waves.{IsWave, NoneAt, Spreads, Widens};

use crate::graph::CallGraph;
use sat_base::Memory;
use sqlite_items::Items;
use std::alloc::Global;

/// The distances that are known so far, and the functions at the newest one.
#[derive(Drop)]
struct Wave {
    distances: Items<Option<usize>>,
    functions: Items<usize>,
}

impl Wave {
    /// No distance is known, and the start is the only function.
    fn begin(alloc: Global, count: usize, start: usize) -> Result<Wave, Memory>
        ensures { IfOk result (λ wave. wave ≡ record { distances = replicate count None; functions = start ∷ [] }) }
    {
        Ok(Wave {
            distances: Items::from_vec(vec![in alloc; None; count]?),
            functions: Items::from_slice(alloc, &[start])?,
        })
    }

    /// Comes to functions: those without a distance get this one.
    fn widen(&mut self, called: &[usize], distance: usize) -> Result<(), Memory>
        requires { IsWave distance self.old }
        ensures { OnOk result (Widens called.now (length called.now) distance self.old self.new) }
    {
        for &callee in called {
            match self.distances.get(callee) {
                Some(None) => {
                    self.distances.set(callee, Some(distance));
                    self.functions.push(callee)?;
                }
                Some(Some(_)) => {}
                None => {}
            }
        }
        Ok(())
    }

    /// The next wave, at this distance, from what the functions of this one call.
    fn spread(self, alloc: Global, graph: &CallGraph, distance: usize) -> Result<Wave, Memory>
        requires sized { length self.distances ≡ length graph.now }
        requires none { NoneAt distance self }
        ensures { IfOk result (Spreads graph.now (length self.functions) distance self) }
    {
        let Wave {
            distances,
            functions,
        } = self;
        let mut next = Wave {
            distances,
            functions: Items::new(alloc),
        };
        for &function in functions.as_slice() {
            next.widen(graph.callees(function), distance)?;
        }
        Ok(next)
    }
}

/// The distance of each function that the start reaches, by its number.
pub(crate) fn distances(
    alloc: Global,
    graph: &CallGraph,
    start: usize,
) -> Result<Items<Option<usize>>, Memory>
    ensures { IfOk result (AreDistances graph.now start) }
{
    let mut wave = Wave::begin(alloc, graph.len(), start)?;
    let mut distance = 0;
    'waves: while !wave.functions.is_empty() {
        distance += 1;
        let next = wave.spread(alloc, graph, distance)?;
        wave = next;
    }
    Ok(wave.distances)
}
