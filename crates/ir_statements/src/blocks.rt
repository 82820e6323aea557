// Starts of objects.

ghost use Rattle.std.specs.Prelude.{◌≡◌, IfOk};
ghost use Rattle.ir_arena.specs.Placed.{trees_at};
ghost use Rattle.ir_arena.specs.Tree.{trees_from};
ghost use Rattle.source_trees.specs.Statements.{starts_in, first_object};
ghost use Rattle.ir_expressions.specs.Building.{setting, AreShort};

use c_typed::Start;
use ir_arena::{Node, place_list};
use ir_expressions::Build;
use sat_base::Memory;
use sqlite_items::Items;

/// The starts of those objects of a block that have a value to start with.
pub fn starts<'a>(build: &Build<'a, '_>, objects: &[Start]) -> Result<&'a [Node<'a>], Memory>
    requires { AreShort build.now.objects.now }
    ensures { IfOk result (λ nodes. trees_at nodes.now ≡ trees_from (starts_in (setting build.now) objects.now)) }
{
    let mut nodes = Items::new(build.alloc);
    for start in objects {
        let Some(value) = &start.value else {
            continue;
        };
        let value = build.argument(value)?;
        let value = build.placed(value)?;
        nodes.push(Node::Start {
            object: start.object,
            value,
        })?;
    }
    place_list(build.bump, nodes.as_slice())
}

/// The number of the first object of a block; 0 where it has none.
pub fn first_object(objects: &[Start]) -> u32
    ensures { result ≡ first_object objects.now }
{
    match objects.first() {
        Some(start) => start.object,
        None => 0,
    }
}
