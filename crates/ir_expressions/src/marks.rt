// Marks of expressions.

ghost use Rattle.std.specs.Prelude.{◌≡◌, IfOk};
ghost use Rattle.operator_meaning.specs.declared.site.SiteKind.TheVariants.{ViewBound};
ghost use Rattle.ir_arena.specs.Tree.{Convert, Choose, end};
ghost use Rattle.ir_arena.specs.Placed.{tree_of};
ghost use Rattle.source_trees.specs.Expressions.{unary_tree, binary_tree, plain_site, one, two};

use crate::build::Build;
use c_tree::{BinaryMark, UnaryMark};
use ir_arena::{Node, place_list};
use operator_meaning::SiteKind;
use sat_base::{Memory, Width};

impl<'a> Build<'a, '_> {
    /// A mark before its operand. A unary `+` leaves no node.
    pub fn unary(&self, mark: UnaryMark, site: u32, part: Node<'a>) -> Result<Node<'a>, Memory>
        ensures { IfOk result (λ node. tree_of node ≡ unary_tree mark site (tree_of part.entry)) }
    {
        match mark {
            UnaryMark::Minus => Ok(Node::Operate {
                site,
                kind: SiteKind::Opposite,
                operands: self.one(part)?,
                weight: 0,
            }),
            UnaryMark::Plus => Ok(part),
            UnaryMark::Not => Ok(Node::Not {
                part: self.placed(part)?,
            }),
            UnaryMark::Invert => Ok(Node::Invert {
                part: self.placed(part)?,
            }),
        }
    }

    /// A mark between two operands: a sum, a difference or a product is a site.
    pub fn binary(
        &self,
        mark: BinaryMark,
        site: u32,
        left: Node<'a>,
        right: Node<'a>,
    ) -> Result<Node<'a>, Memory>
        ensures { IfOk result (λ node. tree_of node ≡ binary_tree mark site (tree_of left.entry) (tree_of right.entry)) }
    {
        match mark {
            BinaryMark::Plus => self.arithmetic(SiteKind::Sum, site, left, right),
            BinaryMark::Minus => self.arithmetic(SiteKind::Difference, site, left, right),
            BinaryMark::Times => self.arithmetic(SiteKind::Product, site, left, right),
            BinaryMark::Either
            | BinaryMark::Both
            | BinaryMark::BitOr
            | BinaryMark::BitXor
            | BinaryMark::BitAnd
            | BinaryMark::Eq
            | BinaryMark::Ne
            | BinaryMark::Lt
            | BinaryMark::Le
            | BinaryMark::Gt
            | BinaryMark::Ge => Ok(Node::Binary {
                mark,
                left: self.placed(left)?,
                right: self.placed(right)?,
            }),
        }
    }

    /// A site of plain arithmetic on two operands.
    fn arithmetic(
        &self,
        kind: SiteKind,
        site: u32,
        left: Node<'a>,
        right: Node<'a>,
    ) -> Result<Node<'a>, Memory>
        ensures { IfOk result (λ node. tree_of node ≡ plain_site site kind (two (tree_of left.entry) (tree_of right.entry))) }
    {
        Ok(Node::Operate {
            site,
            kind,
            operands: self.two(left, right)?,
            weight: 0,
        })
    }
}

impl<'a> Build<'a, '_> {
    /// A conversion: a cast, or an implied one.
    pub fn converted(&self, cast: bool, width: Width, part: Node<'a>) -> Result<Node<'a>, Memory>
        ensures { IfOk result (λ node. tree_of node ≡ Convert cast width (tree_of part.entry)) }
    {
        Ok(Node::Convert {
            cast,
            width,
            part: self.placed(part)?,
        })
    }

    /// `cond ? yes : no`
    pub fn choosing(&self, cond: Node<'a>, yes: Node<'a>, no: Node<'a>) -> Result<Node<'a>, Memory>
        ensures { IfOk result (λ node. tree_of node ≡ Choose (tree_of cond.entry) (tree_of yes.entry) (tree_of no.entry)) }
    {
        Ok(Node::Choose {
            cond: self.placed(cond)?,
            yes: self.placed(yes)?,
            no: self.placed(no)?,
        })
    }

    /// The check of an index.
    pub fn checked(&self, site: u32, kind: SiteKind, index: Node<'a>) -> Result<Node<'a>, Memory>
        ensures { IfOk result (λ node. tree_of node ≡ plain_site site kind (one (tree_of index.entry))) }
    {
        Ok(Node::Operate {
            site,
            kind,
            operands: self.one(index)?,
            weight: 0,
        })
    }

    /// The check of `*x`, which has no operand.
    pub fn unindexed(&self, site: u32) -> Result<Node<'a>, Memory>
        ensures { IfOk result (λ node. tree_of node ≡ plain_site site ViewBound end) }
    {
        Ok(Node::Operate {
            site,
            kind: SiteKind::ViewBound,
            operands: place_list(self.bump, &[])?,
            weight: 0,
        })
    }
}
