// Nodes, lists of them and whole trees, placed and read while their arena lives. That they are not read later is the
// work of the borrow checker: must-fail/tree_is_read_after_its_arena.md.

use bumpalo::Bump;
use ir_arena::{Ir, IrFunction, Node, place_list, place_node};
use sat_base::{Memory, Name};
use sqlite_items::Items;
use std::alloc::Global;

/// `Overflow = value`, whose parts lie in the arena.
fn assigned<'a>(bump: &'a Bump, value: i32) -> Result<Node<'a>, Memory> {
    match place_node(bump, Node::Constant { value }) {
        Ok(value) => Ok(Node::WriteFlag { value }),
        Err(_) => Err(Memory),
    }
}

/// The number that such a node assigns.
fn number(node: &Node<'_>) -> i32 {
    match node {
        Node::WriteFlag { value } => match value {
            Node::Constant { value } => *value,
            _ => 0,
        },
        _ => 0,
    }
}

/// The last of several numbers that are placed, read while their arena lives.
pub fn last_placed(alloc: Global, values: &[i32; 3]) -> Result<i32, Memory> {
    let bump = Bump::new(alloc);
    let first = assigned(&bump, values[0])?;
    let second = assigned(&bump, values[1])?;
    let third = assigned(&bump, values[2])?;
    let list = place_list(&bump, &[first, second, third])?;
    let last = number(&list[2]);
    Ok(last)
}

/// A tree of one function, whose body lies in the arena.
fn tree_of_body<'a>(alloc: Global, body: &'a Node<'a>) -> Result<Ir<'a>, Memory> {
    let mut functions = Items::new(alloc);
    functions.push(IrFunction {
        name: Name::from_slice(alloc, b"main")?,
        gives: None,
        params: Items::new(alloc),
        body,
    })?;
    Ok(Ir {
        functions,
        main: 0,
        objects: Items::new(alloc),
        sites: Items::new(alloc),
        cuts: Items::new(alloc),
        constants: Items::new(alloc),
        weights: 1,
    })
}

/// The number that the body of `main` assigns, read while the arena lives.
pub fn assigned_in_main(alloc: Global, value: i32) -> Result<i32, Memory> {
    let bump = Bump::new(alloc);
    let node = assigned(&bump, value)?;
    let Ok(body) = place_node(&bump, node) else {
        return Err(Memory);
    };
    let tree = tree_of_body(alloc, body)?;
    let found = tree.functions.get(0).map_or(0, |main| number(main.body));
    Ok(found)
}
