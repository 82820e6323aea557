// The heads of loops, down a tree.

ghost use Rattle.std.specs.Prelude.{◌≡◌, ◌++◌, OnOk};
ghost use Rattle.ir_arena.specs.Placed.{tree_of, trees_at};
ghost use Rattle.ir_cuts.specs.Cuts.{heads, heads_in};

use crate::scope::Scope;
use ir_arena::{CutPlace, Node};
use sat_base::Memory;
use sqlite_items::Items;

/// Adds the cuts of the loops in a node, in the order of their keywords.
#[cycle(heads)]
pub fn heads(
    scope: &Scope<'_>,
    variables: &[u32],
    node: &Node<'_>,
    cuts: &mut Items<CutPlace>,
) -> Result<(), Memory>
    ensures { OnOk result (cuts.new ≡ cuts.old ++ heads scope.now.objects.now scope.now.function variables.now (tree_of node.now)) }
{
    match node {
        Node::Block {
            first,
            objects,
            parts,
            ..
        } => {
            let inner = scope.with_block(variables, *first, *objects)?;
            heads_in(scope, inner.as_slice(), parts, cuts)
        }
        Node::If { yes, no, .. } => {
            heads(scope, variables, yes, cuts)?;
            match no {
                None => Ok(()),
                Some(no) => heads(scope, variables, no, cuts),
            }
        }
        Node::Loop { body, .. } => {
            cuts.push(scope.head(variables)?)?;
            heads(scope, variables, body, cuts)
        }
        Node::Constant { .. }
        | Node::Read { .. }
        | Node::Address { .. }
        | Node::Operate { .. }
        | Node::Convert { .. }
        | Node::Not { .. }
        | Node::Invert { .. }
        | Node::Binary { .. }
        | Node::Choose { .. }
        | Node::Call { .. }
        | Node::ReadFlag { .. }
        | Node::Left
        | Node::Write { .. }
        | Node::Step { .. }
        | Node::WriteFlag { .. }
        | Node::Out { .. }
        | Node::AddCount { .. }
        | Node::Start { .. }
        | Node::Empty
        | Node::Leave { .. }
        | Node::Return { .. } => Ok(()),
    }
}

/// Those of several nodes, in order.
#[cycle(heads)]
fn heads_in(
    scope: &Scope<'_>,
    variables: &[u32],
    nodes: &[Node<'_>],
    cuts: &mut Items<CutPlace>,
) -> Result<(), Memory>
    ensures { OnOk result (cuts.new ≡ cuts.old ++ heads_in scope.now.objects.now scope.now.function variables.now (trees_at nodes.now)) }
{
    for node in nodes {
        heads(scope, variables, node, cuts)?;
    }
    Ok(())
}
