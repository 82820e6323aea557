// Nodes come into the arena.

ghost use Rattle.std.specs.Prelude.{◌≡◌, IfOk, MatchResult};

use crate::node::Node;
use bumpalo::Bump;
use sat_base::Memory;

/// The node, now_of in the arena; or the node itself where memory is wanting.
pub fn place_node<'a>(bump: &'a Bump, node: Node<'a>) -> Result<&'a Node<'a>, Node<'a>>
    ensures { MatchResult result (λ now_of. now_of.now ≡ node.entry) (λ back. back ≡ node.entry) }
{
    match bump.try_alloc(node) {
        Ok(now_of) => Ok(&*now_of),
        Err(failed) => Err(failed.value),
    }
}

/// The nodes of the list, now_of in the arena in their order.
pub fn place_list<'a>(bump: &'a Bump, list: &[Node<'a>]) -> Result<&'a [Node<'a>], Memory>
    ensures { IfOk result (λ now_of. now_of.now ≡ list.now) }
{
    Ok(bump.try_alloc_slice_copy(list)?)
}
