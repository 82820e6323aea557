// The calls backwards.

ghost use Rattle.std.specs.Prelude.{◌≡◌, ◌<◌, [], OnOk, IfOk, length, replicate};
ghost use Rattle.call_graph.specs.Backwards.{AddsCaller, IsReversed};

use crate::graph::CallGraph;
use sat_base::Memory;
use std::alloc::Global;

/// The graph in which each function calls those that call it.
pub(crate) fn backwards(alloc: Global, graph: &CallGraph) -> Result<CallGraph, Memory>
    ensures { IfOk result (IsReversed graph.now) }
{
    let mut back = without_calls(alloc, graph.len())?;
    for caller in 0..graph.len() {
        add_caller(&mut back, caller, graph.callees(caller))?;
    }
    Ok(back)
}

/// So many functions, which call none.
fn without_calls(alloc: Global, count: usize) -> Result<CallGraph, Memory>
    ensures { IfOk result (λ graph. graph ≡ replicate count []) }
{
    let mut graph = CallGraph::new(alloc);
    for _ in 0..count {
        graph.add(alloc)?;
    }
    Ok(graph)
}

/// Adds a caller to each of these functions.
fn add_caller(back: &mut CallGraph, caller: usize, called: &[usize]) -> Result<(), Memory>
    ensures { OnOk result (AddsCaller caller called.now (length called.now) back.old back.new) }
{
    for &callee in called {
        if callee < back.len() {
            back.connect(callee, caller)?;
        }
    }
    Ok(())
}
