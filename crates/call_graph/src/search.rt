// An order of functions with callers first.

ghost use Rattle.std.specs.Prelude.{◌≡◌, ◌<◌, OnOk, IfOk, IfErr, length, reverse};
ghost use Rattle.call_graph.specs.Orders.{IsOrder};
ghost use Rattle.call_graph.specs.Refusals.{IsCause};
ghost use Rattle.call_graph.specs.Search.{IsSearched, IsIdle, IsRecursive, AllReach, Visits, Lists, mark_of};
ghost use Rattle.call_graph.specs.declared.search.Mark.TheVariants.{New};
ghost use Rattle.call_graph.specs.declared.search.Halt.TheVariants.{Recursion};

use crate::cycle::first_cycle;
use crate::graph::CallGraph;
use crate::refusal::OrderRefusal;
use sat_base::Memory;
use sqlite_items::Items;
use std::alloc::Global;

/// How far the search has come with a function.
#[derive(Clone, Copy)]
enum Mark {
    /// It has not come to it.
    New,
    /// It is at what the function reaches.
    Open,
    /// The function and all that it reaches are listed.
    Done,
}

/// A search through all calls.
#[derive(Drop)]
struct Search {
    marks: Items<Mark>,
    // each after what it calls
    done: Items<usize>,
}

/// Why a search ends early.
#[derive(Drop)]
enum Halt {
    Memory,
    /// A function reaches itself.
    Recursion,
}

impl From<Memory> for Halt {
    ghost use Rattle.std.specs.Prelude.{◌≡◌};
    ghost use Rattle.call_graph.specs.declared.search.Halt.TheVariants.{Memory};

    ghost from_gives = { λ _ halt. halt ≡ Memory };

    fn from(_memory: Memory) -> Halt {
        Halt::Memory
    }
}

impl Search {
    /// A search that has come to no function.
    fn new(alloc: Global, graph: &CallGraph) -> Result<Search, Memory>
        ensures { IfOk result (IsIdle graph.now) }
    {
        let marks = Items::from_vec(vec![in alloc; Mark::New; graph.len()]?);
        let done = Items::new(alloc);
        Ok(Search { marks, done })
    }

    /// Lists a function and all that it reaches, where none of them reaches itself.
    fn visit(&mut self, graph: &CallGraph, function: usize) -> Result<(), Halt>
        requires searched { IsSearched graph.now self.old }
        requires own { function < length graph.now }
        requires new { mark_of self.old function ≡ New }
        requires open { AllReach graph.now self.old function }
        ensures visits { OnOk result (Visits graph.now function self.old self.new) }
        ensures recursion { IfErr result (λ e. e ≡ Recursion → IsRecursive graph.now) }
    {
        self.marks.set(function, Mark::Open);
        for &callee in graph.callees(function) {
            match self.marks.get(callee) {
                Some(Mark::New) => self.visit(graph, callee)?,
                Some(Mark::Open) => return Err(Halt::Recursion),
                Some(Mark::Done) => {}
                None => {}
            }
        }
        self.marks.set(function, Mark::Done);
        match self.done.push(function) {
            Ok(()) => Ok(()),
            Err(_) => Err(Halt::Memory),
        }
    }

    /// Lists a function, where it is not listed, as `visit` does.
    fn list(&mut self, graph: &CallGraph, function: usize) -> Result<(), Halt>
        requires idle { IsIdle graph.now self.old }
        requires own { function < length graph.now }
        ensures lists { OnOk result (Lists graph.now function self.old self.new) }
        ensures recursion { IfErr result (λ e. e ≡ Recursion → IsRecursive graph.now) }
    {
        match self.marks.get(function) {
            Some(Mark::New) => self.visit(graph, function),
            Some(Mark::Open) => Ok(()),
            Some(Mark::Done) => Ok(()),
            None => Ok(()),
        }
    }
}

/// An order in which each function stands before those that it calls.
fn callers_first(alloc: Global, graph: &CallGraph) -> Result<Items<usize>, Halt>
    ensures order { IfOk result (IsOrder graph.now) }
    ensures recursion { IfErr result (λ e. e ≡ Recursion → IsRecursive graph.now) }
{
    let mut search = Search::new(alloc, graph)?;
    for function in 0..graph.len() {
        search.list(graph, function)?;
    }
    Ok(reversed(alloc, &search.done)?)
}

/// The functions, last first.
fn reversed(alloc: Global, functions: &Items<usize>) -> Result<Items<usize>, Memory>
    ensures { IfOk result (λ back. back ≡ reverse functions.now) }
{
    let back = functions.as_slice().iter().rev().copied().collect(alloc)?;
    Ok(Items::from_vec(back))
}

/// An order of the functions in which each stands before those that it calls. A call of a number that is no function
/// counts for nothing.
///
/// `Recursive` comes exactly where a function reaches itself.
pub fn order(alloc: Global, graph: &CallGraph) -> Result<Items<usize>, OrderRefusal>
    ensures order { IfOk result (IsOrder graph.now) }
    ensures refused { IfErr result (IsCause graph.now) }
{
    match callers_first(alloc, graph) {
        Ok(order) => Ok(order),
        Err(Halt::Memory) => Err(OrderRefusal::Memory),
        Err(Halt::Recursion) => match first_cycle(alloc, graph)? {
            Some(cycle) => Err(OrderRefusal::Recursive { cycle }),
            None => unreachable!(),
        },
    }
}
