// What places reach.

ghost use Rattle.std.specs.Prelude.{◌≡◌, ◌+◌};
ghost use Rattle.ir_arena.specs.Placed.{target_of, trees_at};
ghost use Rattle.operator_meaning.specs.declared.site.SiteKind.TheVariants.{Bound};
ghost use Rattle.source_runs.specs.Steps.{edge};
ghost use Rattle.source_trees.specs.Expressions.{indexed, index_kind};
ghost use Rattle.ir_expressions.specs.Building.{IsShort};

use ir_arena::{Node, Target};
use operator_meaning::SiteKind;
use source_runs::{Access, Shape};

/// An object by its indices, as an array or through a view.
pub fn indexed<'a>(shape: Shape, index: &'a [Node<'a>]) -> Target<'a>
    ensures { target_of result ≡ indexed shape (trees_at index.now) }
{
    if shape.view {
        Target::ThroughView {
            view: shape.object,
            index,
        }
    } else {
        Target::Element {
            object: shape.object,
            index,
        }
    }
}

/// One more where an address is taken, which may lie after the last element.
fn edge(access: Access) -> u32
    ensures { result ≡ edge access }
{
    match access {
        Access::Element => 0,
        Access::Address => 1,
    }
}

/// The check of the one index into an object.
pub fn index_kind(access: Access, shape: Shape) -> SiteKind
    requires { IsShort shape }
    ensures { result ≡ index_kind access shape }
{
    if shape.view {
        match access {
            Access::Element => SiteKind::ViewBound,
            Access::Address => SiteKind::ViewEdge,
        }
    } else if shape.columns == 0 {
        SiteKind::Bound(shape.rows + edge(access))
    } else {
        SiteKind::Bound(shape.rows)
    }
}

/// The check of the second of two indices.
pub fn column_kind(access: Access, shape: Shape) -> SiteKind
    requires { IsShort shape }
    ensures { result ≡ Bound (shape.columns + edge access) }
{
    SiteKind::Bound(shape.columns + edge(access))
}
