// The calls among functions.

ghost use Rattle.std.specs.Prelude.{◌≡◌, [], ◌∷◌, ◌++◌, ◌<◌, OnOk, length, slice_set};
ghost use Rattle.call_graph.specs.Walks.{callees};

use sat_base::Memory;
use sqlite_items::Items;
use std::alloc::Global;
use std::marker::Model;

/// Which functions call which. Contracts see it as the list of what each function calls, where a function is its
/// place in the list.
#[derive(Drop)]
pub struct CallGraph {
    rows: Vec<Items<usize>>,
}

impl Model for CallGraph {
    ghost use Rattle.std.specs.Prelude.{List, ℕ};

    ghost Value = { List (List ℕ) };

    ghost view = { λ graph. graph.rows.items };
}

impl CallGraph {
    /// No function.
    pub fn new(alloc: Global) -> CallGraph
        ensures { result ≡ [] }
    {
        CallGraph {
            rows: Vec::new(alloc),
        }
    }

    /// The number of functions.
    pub fn len(&self) -> usize
        ensures { result ≡ length self.now }
    {
        self.rows.len()
    }

    /// One function more, which calls these.
    pub fn push(&mut self, callees: Items<usize>) -> Result<(), Memory>
        ensures { OnOk result (self.new ≡ self.old ++ callees ∷ []) }
    {
        self.rows.push(callees)?;
        Ok(())
    }

    /// One function more, which calls none so far.
    pub fn add(&mut self, alloc: Global) -> Result<(), Memory>
        ensures { OnOk result (self.new ≡ self.old ++ [] ∷ []) }
    {
        self.push(Items::new(alloc))
    }

    /// One call more.
    pub fn connect(&mut self, caller: usize, callee: usize) -> Result<(), Memory>
        requires { caller < length self.old }
        ensures { OnOk result (self.new ≡ slice_set self.old caller (callees self.old caller ++ callee ∷ [])) }
    {
        self.rows[caller].push(callee)?;
        Ok(())
    }

    /// What a function calls, in the order in which the calls were added; nothing where there is no such function.
    pub fn callees(&self, caller: usize) -> &[usize]
        ensures { result.now ≡ callees self.now caller }
    {
        match self.rows.get(caller) {
            Some(row) => row.as_slice(),
            None => &[],
        }
    }
}
