// Statements and blocks, down the tree of a source.

ghost use Rattle.std.specs.Prelude.{◌≡◌, ◌+◌, IfOk, map};
ghost use Rattle.ir_arena.specs.Placed.{tree_of};
ghost use Rattle.source_trees.specs.Statements.{statement_tree, block_tree, trees_along, next_along, conditions};
ghost use Rattle.ir_expressions.specs.Building.{setting, AreShort};
ghost use Rattle.ir_statements.specs.Numbers.{tree_where};

use crate::blocks::{first_object, starts};
use crate::loops::{Around, branched, looped, nothing, returned};
use crate::numbered::Numbered;
use crate::simples::{simple, simples};
use c_typed::{TypedBlock, TypedExpr, TypedStmt};
use ir_arena::{Node, place_list};
use ir_expressions::Build;
use sat_base::Memory;
use sqlite_items::{Boxed, Items};

/// Several nodes, and the number of the next loop after them.
#[derive(Drop)]
pub struct NumberedNodes<'a> {
    pub nodes: Items<Node<'a>>,
    pub next: u32,
}

/// An expression that may be missing.
fn conditions<'a>(
    build: &Build<'a, '_>,
    cond: &Option<Boxed<TypedExpr>>,
) -> Result<Option<Node<'a>>, Memory>
    requires { AreShort build.now.objects.now }
    ensures { IfOk result (λ node. tree_where node ≡ conditions (setting build.now) cond.now) }
{
    match cond {
        None => Ok(None),
        Some(cond) => {
            let cond = build.expression(cond.get())?;
            Ok(Some(cond))
        }
    }
}

/// The number after this one. A tree with 2^32 loops does not fit in memory.
fn after(cut: u32) -> Result<u32, Memory>
    ensures { IfOk result (λ next. next ≡ cut + 1) }
{
    cut.checked_add(1).ok_or(Memory)
}

/// A statement, of which the first loop has this number.
#[cycle(statement)]
pub fn statement<'a>(
    build: &Build<'a, '_>,
    stmt: &TypedStmt,
    next: u32,
) -> Result<Numbered<'a>, Memory>
    requires { AreShort build.now.objects.now }
    ensures tree { IfOk result (λ made. tree_of made.node ≡ (statement_tree (setting build.now) stmt.now next).tree) }
    ensures loops { IfOk result (λ made. made.next ≡ (statement_tree (setting build.now) stmt.now next).next) }
{
    match stmt {
        TypedStmt::Empty { .. } => Ok(Numbered::loopless(Node::Empty, next)),
        TypedStmt::Block(inner) => block(build, inner, next),
        TypedStmt::Simple(each) => Ok(Numbered::loopless(simple(build, each)?, next)),
        TypedStmt::If { cond, yes, no, .. } => {
            let cond = build.expression(cond.get())?;
            let yes = statement(build, yes.get(), next)?;
            match no {
                None => {
                    let node = branched(build, cond, yes.node, None)?;
                    Ok(Numbered {
                        node,
                        next: yes.next,
                    })
                }
                Some(no) => {
                    let no = statement(build, no.get(), yes.next)?;
                    let node = branched(build, cond, yes.node, Some(no.node))?;
                    Ok(Numbered {
                        node,
                        next: no.next,
                    })
                }
            }
        }
        TypedStmt::While { cond, body, .. } => {
            let cond = build.expression(cond.get())?;
            let inside = statement(build, body.get(), after(next)?)?;
            let around = Around {
                cut: next,
                tests_first: true,
                first: nothing(build)?,
                cond: Some(cond),
                last: nothing(build)?,
            };
            let node = looped(build, around, inside.node)?;
            Ok(Numbered {
                node,
                next: inside.next,
            })
        }
        TypedStmt::Do { body, cond, .. } => {
            let inside = statement(build, body.get(), after(next)?)?;
            let cond = build.expression(cond.get())?;
            let around = Around {
                cut: next,
                tests_first: false,
                first: nothing(build)?,
                cond: Some(cond),
                last: nothing(build)?,
            };
            let node = looped(build, around, inside.node)?;
            Ok(Numbered {
                node,
                next: inside.next,
            })
        }
        TypedStmt::For {
            first,
            cond,
            last,
            body,
            ..
        } => {
            let first = simples(build, first.as_slice())?;
            let cond = conditions(build, cond)?;
            let last = simples(build, last.as_slice())?;
            let inside = statement(build, body.get(), after(next)?)?;
            let around = Around {
                cut: next,
                tests_first: true,
                first,
                cond,
                last,
            };
            let node = looped(build, around, inside.node)?;
            Ok(Numbered {
                node,
                next: inside.next,
            })
        }
        TypedStmt::Break { .. } => Ok(Numbered::loopless(Node::Leave { again: false }, next)),
        TypedStmt::Continue { .. } => Ok(Numbered::loopless(Node::Leave { again: true }, next)),
        TypedStmt::Return { value, .. } => {
            let value = conditions(build, value)?;
            let node = returned(build, value)?;
            Ok(Numbered::loopless(node, next))
        }
    }
}

/// Several statements, in order.
#[cycle(statement)]
fn statements<'a>(
    build: &Build<'a, '_>,
    stmts: &[TypedStmt],
    next: u32,
) -> Result<NumberedNodes<'a>, Memory>
    requires { AreShort build.now.objects.now }
    ensures trees { IfOk result (λ made. map tree_of made.nodes ≡ trees_along (map (statement_tree (setting build.now)) stmts.now) next) }
    ensures loops { IfOk result (λ made. made.next ≡ next_along (map (statement_tree (setting build.now)) stmts.now) next) }
{
    let mut nodes = Items::new(build.alloc);
    let mut later = next;
    for stmt in stmts {
        let made = statement(build, stmt, later)?;
        nodes.push(made.node)?;
        later = made.next;
    }
    Ok(NumberedNodes { nodes, next: later })
}

/// A block, of which the first loop has this number.
#[cycle(statement)]
pub fn block<'a>(
    build: &Build<'a, '_>,
    block: &TypedBlock,
    next: u32,
) -> Result<Numbered<'a>, Memory>
    requires { AreShort build.now.objects.now }
    ensures tree { IfOk result (λ made. tree_of made.node ≡ (block_tree (setting build.now) block.now next).tree) }
    ensures loops { IfOk result (λ made. made.next ≡ (block_tree (setting build.now) block.now next).next) }
{
    let objects = block.objects.as_slice();
    let starts = starts(build, objects)?;
    let Ok(count) = u32::try_from(objects.len()) else {
        return Err(Memory);
    };
    let parts = statements(build, block.stmts.as_slice(), next)?;
    let node = Node::Block {
        first: first_object(objects),
        objects: count,
        starts,
        parts: place_list(build.bump, parts.nodes.as_slice())?,
    };
    Ok(Numbered {
        node,
        next: parts.next,
    })
}
