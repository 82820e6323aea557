// Nodes, with the number of the next loop.

ghost use Rattle.std.specs.Prelude.{◌≡◌};

use ir_arena::Node;

/// A node, and the number of the next loop after it.
#[derive(Clone, Copy)]
pub struct Numbered<'a> {
    pub node: Node<'a>,
    pub next: u32,
}

impl<'a> Numbered<'a> {
    /// A node without a loop.
    pub fn loopless(node: Node<'a>, next: u32) -> Numbered<'a>
        ensures { (result.node ≡ node.entry) × (result.next ≡ next) }
    {
        Numbered { node, next }
    }
}
