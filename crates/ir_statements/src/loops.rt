// Loops and branches, once their parts are made.

ghost use Rattle.std.specs.Prelude.{◌≡◌, IfOk};
ghost use Rattle.ir_arena.specs.Placed.{tree_of, trees_at, trees_where};
ghost use Rattle.ir_arena.specs.Tree.{Loop, If, Return, end};
ghost use Rattle.ir_statements.specs.Numbers.{tree_where};

use ir_arena::{Node, place_list};
use ir_expressions::Build;
use sat_base::Memory;

/// What stands around the body of a loop.
#[derive(Clone, Copy)]
pub struct Around<'a> {
    /// The number of its cut.
    pub cut: u32,
    pub tests_first: bool,
    pub first: &'a [Node<'a>],
    pub cond: Option<Node<'a>>,
    pub last: &'a [Node<'a>],
}

/// A child that may be missing, in the arena.
pub fn placed_where<'a>(
    build: &Build<'a, '_>,
    node: Option<Node<'a>>,
) -> Result<Option<&'a Node<'a>>, Memory>
    ensures { IfOk result (λ placed. trees_where placed ≡ tree_where node.entry) }
{
    match node {
        None => Ok(None),
        Some(node) => Ok(Some(build.placed(node)?)),
    }
}

/// No nodes.
pub fn nothing<'a>(build: &Build<'a, '_>) -> Result<&'a [Node<'a>], Memory>
    ensures { IfOk result (λ nodes. trees_at nodes.now ≡ end) }
{
    place_list(build.bump, &[])
}

/// A loop with its body.
pub fn looped<'a>(
    build: &Build<'a, '_>,
    around: Around<'a>,
    body: Node<'a>,
) -> Result<Node<'a>, Memory>
    ensures { IfOk result (λ node. tree_of node ≡ Loop around.entry.cut around.entry.tests_first (trees_at around.entry.first.now) (tree_where around.entry.cond) (trees_at around.entry.last.now) (tree_of body.entry)) }
{
    let cond = placed_where(build, around.cond)?;
    let body = build.placed(body)?;
    Ok(Node::Loop {
        cut: around.cut,
        tests_first: around.tests_first,
        first: around.first,
        cond,
        last: around.last,
        body,
    })
}

/// A branch whose other side may be missing.
pub fn branched<'a>(
    build: &Build<'a, '_>,
    cond: Node<'a>,
    yes: Node<'a>,
    no: Option<Node<'a>>,
) -> Result<Node<'a>, Memory>
    ensures { IfOk result (λ node. tree_of node ≡ If (tree_of cond.entry) (tree_of yes.entry) (tree_where no.entry)) }
{
    let cond = build.placed(cond)?;
    let yes = build.placed(yes)?;
    let no = placed_where(build, no)?;
    Ok(Node::If { cond, yes, no })
}

/// A `return`, whose value may be missing.
pub fn returned<'a>(build: &Build<'a, '_>, value: Option<Node<'a>>) -> Result<Node<'a>, Memory>
    ensures { IfOk result (λ node. tree_of node ≡ Return (tree_where value.entry)) }
{
    let value = placed_where(build, value)?;
    Ok(Node::Return { value })
}
