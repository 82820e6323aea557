// What the building of a tree stands on.

ghost use Rattle.std.specs.Prelude.{◌≡◌, IfOk};
ghost use Rattle.ir_arena.specs.Placed.{tree_of, trees_at};
ghost use Rattle.source_trees.specs.Expressions.{one, two};

use bumpalo::Bump;
use ir_arena::{Node, place_list, place_node};
use operator_meaning::Object;
use sat_base::Memory;
use std::alloc::Global;
use weight_table::Table;

/// Where nodes go, and what is looked up and does not change.
#[derive(Clone, Copy)]
pub struct Build<'a, 's> {
    /// The memory for lists that are gathered.
    pub alloc: Global,
    /// The arena.
    pub bump: &'a Bump,
    pub objects: &'s [Object],
    /// The table of weights.
    pub table: Table,
    /// Of each function of the source its number among those that are defined.
    pub numbers: &'s [u32],
}

impl<'a> Build<'a, '_> {
    /// The node, in the arena.
    pub fn placed(&self, node: Node<'a>) -> Result<&'a Node<'a>, Memory>
        ensures { IfOk result (λ placed. placed.now ≡ node.entry) }
    {
        match place_node(self.bump, node) {
            Ok(placed) => Ok(placed),
            Err(_) => Err(Memory),
        }
    }

    /// A list of one node, in the arena.
    pub fn one(&self, node: Node<'a>) -> Result<&'a [Node<'a>], Memory>
        ensures { IfOk result (λ placed. trees_at placed.now ≡ one (tree_of node.entry)) }
    {
        place_list(self.bump, &[node])
    }

    /// A list of two nodes, in the arena.
    pub fn two(&self, first: Node<'a>, second: Node<'a>) -> Result<&'a [Node<'a>], Memory>
        ensures { IfOk result (λ placed. trees_at placed.now ≡ two (tree_of first.entry) (tree_of second.entry)) }
    {
        place_list(self.bump, &[first, second])
    }
}
