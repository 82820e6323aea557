// Expressions, places and arguments, down the tree of a source.

ghost use Rattle.std.specs.Prelude.{◌≡◌, IfOk, map};
ghost use Rattle.ir_arena.specs.Placed.{tree_of, target_of};
ghost use Rattle.typed_meaning.specs.Expressions.{site_at};
ghost use Rattle.source_trees.specs.Expressions.{expression_tree, place_tree, argument_tree, call_tree};
ghost use Rattle.ir_expressions.specs.Building.{setting, AreShort};

use crate::build::Build;
use crate::targets::{column_kind, index_kind, indexed};
use c_typed::{TypedArg, TypedCall, TypedExpr, TypedExprKind, TypedPlace};
use ir_arena::{Node, Target};
use operator_meaning::SiteKind;
use sat_base::Memory;
use source_runs::{Access, Shape};
use sqlite_items::Items;

/// The number of a site; 0 where there is none.
pub fn site_at(site: Option<u32>) -> u32
    ensures { result ≡ site_at site }
{
    site.unwrap_or(0)
}

impl<'a> Build<'a, '_> {
    /// The node of an expression.
    #[cycle(expression)]
    pub fn expression(&self, e: &TypedExpr) -> Result<Node<'a>, Memory>
        requires { AreShort self.now.objects.now }
        ensures { IfOk result (λ node. tree_of node ≡ expression_tree (setting self.now) e.now) }
    {
        match &e.kind {
            TypedExprKind::Int(value) => Ok(Node::Constant { value: *value }),
            TypedExprKind::Read(place) => {
                let target = self.target(place.get(), Access::Element)?;
                Ok(Node::Read { target })
            }
            TypedExprKind::ReadOverflow { word_at } => Ok(Node::ReadFlag { pos: word_at.pos }),
            TypedExprKind::Unary {
                mark,
                site,
                part,
                ..
            } => {
                let part = self.expression(part.get())?;
                self.unary(*mark, site_at(*site), part)
            }
            TypedExprKind::Binary {
                mark,
                site,
                left,
                right,
                ..
            } => {
                let left = self.expression(left.get())?;
                let right = self.expression(right.get())?;
                self.binary(*mark, site_at(*site), left, right)
            }
            TypedExprKind::Cast { width, part } => {
                let part = self.expression(part.get())?;
                self.converted(true, *width, part)
            }
            TypedExprKind::Convert { width, part } => {
                let part = self.expression(part.get())?;
                self.converted(false, *width, part)
            }
            TypedExprKind::Choose { cond, yes, no } => {
                let cond = self.expression(cond.get())?;
                let yes = self.expression(yes.get())?;
                let no = self.expression(no.get())?;
                self.choosing(cond, yes, no)
            }
            TypedExprKind::Call(call) => self.call(call),
        }
    }

    /// What a place reaches.
    #[cycle(expression)]
    pub fn target(&self, place: &TypedPlace, access: Access) -> Result<Target<'a>, Memory>
        requires { AreShort self.now.objects.now }
        ensures { IfOk result (λ target. target_of target ≡ place_tree (setting self.now) place.now access) }
    {
        match place {
            TypedPlace::Plain { object, .. } => Ok(Target::Variable { object: *object }),
            TypedPlace::Index {
                object,
                site,
                index,
                ..
            } => {
                let shape = Shape::of(self.objects, *object);
                let index = self.expression(index.get())?;
                let check = self.checked(site_at(*site), index_kind(access, shape), index)?;
                Ok(indexed(shape, self.one(check)?))
            }
            TypedPlace::Index2 {
                object,
                first_site,
                first,
                second_site,
                second,
                ..
            } => {
                let shape = Shape::of(self.objects, *object);
                let first = self.expression(first.get())?;
                let row = self.checked(site_at(*first_site), SiteKind::Bound(shape.rows), first)?;
                let second = self.expression(second.get())?;
                let kind = column_kind(access, shape);
                let column = self.checked(site_at(*second_site), kind, second)?;
                Ok(indexed(shape, self.two(row, column)?))
            }
            TypedPlace::Deref { object, site, .. } => {
                let check = self.unindexed(site_at(*site))?;
                let index = self.one(check)?;
                Ok(indexed(Shape::of(self.objects, *object), index))
            }
        }
    }

    /// The node of an argument, or of an initial value.
    #[cycle(expression)]
    pub fn argument(&self, arg: &TypedArg) -> Result<Node<'a>, Memory>
        requires { AreShort self.now.objects.now }
        ensures { IfOk result (λ node. tree_of node ≡ argument_tree (setting self.now) arg.now) }
    {
        match arg {
            TypedArg::Value(value) => self.expression(value),
            TypedArg::Address { place, .. } => {
                let target = self.target(place, Access::Address)?;
                Ok(Node::Address { target })
            }
        }
    }

    /// The nodes of several arguments, in order.
    #[cycle(expression)]
    pub fn arguments(&self, args: &[TypedArg]) -> Result<Items<Node<'a>>, Memory>
        requires { AreShort self.now.objects.now }
        ensures { IfOk result (λ nodes. map tree_of nodes ≡ map (argument_tree (setting self.now)) args.now) }
    {
        let mut nodes = Items::new(self.alloc);
        for arg in args {
            nodes.push(self.argument(arg)?)?;
        }
        Ok(nodes)
    }

    /// The node of a call.
    #[cycle(expression)]
    pub fn call(&self, call: &TypedCall) -> Result<Node<'a>, Memory>
        requires { AreShort self.now.objects.now }
        ensures { IfOk result (λ node. tree_of node ≡ call_tree (setting self.now) call.now) }
    {
        let args = self.arguments(call.args.as_slice())?;
        self.called(call.callee, site_at(call.site), args.as_slice())
    }
}
