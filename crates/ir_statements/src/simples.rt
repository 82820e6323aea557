// Assignments, steps and calls.

ghost use Rattle.std.specs.Prelude.{◌≡◌, IfOk, map};
ghost use Rattle.ir_arena.specs.Placed.{tree_of, target_of, trees_at};
ghost use Rattle.source_trees.specs.Statements.{object_in, width_in, simple_tree, simples_tree};
ghost use Rattle.ir_expressions.specs.Building.{setting, AreShort};

use c_typed::TypedSimple;
use ir_arena::{Node, Target, place_list};
use ir_expressions::{Build, site_at};
use sat_base::{Memory, Width};
use source_runs::{Access, Shape};
use sqlite_items::Items;

/// The object that a place names.
fn object_in(target: &Target<'_>) -> u32
    ensures { result ≡ object_in (target_of target.now) }
{
    match target {
        Target::Variable { object } => *object,
        Target::Element { object, .. } => *object,
        Target::ThroughView { view, .. } => *view,
    }
}

/// The width of what is written.
fn width_in(build: &Build<'_, '_>, target: &Target<'_>) -> Width
    ensures { result ≡ width_in (setting build.now) (target_of target.now) }
{
    Shape::of(build.objects, object_in(target)).width
}

/// An assignment, a step or a call, as a statement or as a part of a `for`.
pub fn simple<'a>(build: &Build<'a, '_>, simple: &TypedSimple) -> Result<Node<'a>, Memory>
    requires { AreShort build.now.objects.now }
    ensures { IfOk result (λ node. tree_of node ≡ simple_tree (setting build.now) simple.now) }
{
    match simple {
        TypedSimple::Assign {
            place,
            mark,
            site,
            value,
            ..
        } => {
            let target = build.target(place.get(), Access::Element)?;
            let width = width_in(build, &target);
            let value = build.expression(value.get())?;
            let value = build.placed(value)?;
            Ok(Node::Write {
                target,
                mark: *mark,
                width,
                site: *site,
                value,
            })
        }
        TypedSimple::Step {
            place,
            up,
            site,
            ..
        } => {
            let target = build.target(place.get(), Access::Element)?;
            let width = width_in(build, &target);
            Ok(Node::Step {
                target,
                up: *up,
                width,
                site: site_at(*site),
            })
        }
        TypedSimple::SetOverflow { value, .. } => {
            let value = build.expression(value.get())?;
            let value = build.placed(value)?;
            Ok(Node::WriteFlag { value })
        }
        TypedSimple::Call(call) => build.call(call),
    }
}

/// Several of them, in the arena.
pub fn simples<'a>(build: &Build<'a, '_>, simples: &[TypedSimple]) -> Result<&'a [Node<'a>], Memory>
    requires { AreShort build.now.objects.now }
    ensures { IfOk result (λ nodes. trees_at nodes.now ≡ simples_tree (setting build.now) simples.now) }
{
    let mut nodes = Items::new(build.alloc);
    for each in simples {
        nodes.push(simple(build, each)?)?;
    }
    place_list(build.bump, nodes.as_slice())
}
