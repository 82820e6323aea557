// Calls, once their arguments are made.

ghost use Rattle.std.specs.Prelude.{◌≡◌, IfOk, map, slice_get};
ghost use Rattle.std.specs.Option.{unwrap_or};
ghost use Rattle.ir_arena.specs.Placed.{tree_of};
ghost use Rattle.source_trees.specs.Expressions.{called_tree, counting_tree, first_or_zero};
ghost use Rattle.ir_expressions.specs.Building.{setting};

use crate::build::Build;
use c_typed::Callee;
use ir_arena::{Node, place_list};
use operator_meaning::SiteKind;
use sat_base::Memory;
use weight_table::{Counted, weight};

impl<'a> Build<'a, '_> {
    /// A call of a function of the source, of an operator, or of what every source has.
    pub fn called(&self, callee: Callee, site: u32, args: &[Node<'a>]) -> Result<Node<'a>, Memory>
        ensures { IfOk result (λ node. tree_of node ≡ called_tree (setting self.now) callee site (map tree_of args.now)) }
    {
        match callee {
            Callee::Function(number) => Ok(Node::Call {
                function: self.number_of(number),
                args: place_list(self.bump, args)?,
            }),
            Callee::Operator(op) => Ok(Node::Operate {
                site,
                kind: SiteKind::Call(op),
                operands: place_list(self.bump, args)?,
                weight: weight(self.table, Counted::Call(op)),
            }),
            Callee::Move16 => Ok(self.counting(Counted::Move16)),
            Callee::Move32 => Ok(self.counting(Counted::Move32)),
            Callee::Logic16 => Ok(self.counting(Counted::Logic16)),
            Callee::Logic32 => Ok(self.counting(Counted::Logic32)),
            Callee::Test => Ok(self.counting(Counted::Test)),
            Callee::SampleIn => Ok(Node::Operate {
                site,
                kind: SiteKind::Sample,
                operands: place_list(self.bump, &[])?,
                weight: 0,
            }),
            Callee::SampleLeft => Ok(Node::Left),
            Callee::SampleOut => Ok(Node::Out {
                value: self.placed(first_or_zero(args))?,
            }),
        }
    }

    /// The number of a function of the source among those that are defined; 0 where it has none.
    fn number_of(&self, function: u32) -> u32
        ensures { result ≡ unwrap_or (slice_get self.now.numbers.now function) 0 }
    {
        self.numbers.get(function as usize).copied().unwrap_or(0)
    }

    /// A counting call.
    fn counting(&self, what: Counted) -> Node<'a>
        ensures { tree_of result ≡ counting_tree self.now.table what }
    {
        Node::AddCount {
            weight: weight(self.table, what),
        }
    }
}

/// The first of several; 0 where there is none.
fn first_or_zero<'a>(nodes: &[Node<'a>]) -> Node<'a>
    ensures { tree_of result ≡ first_or_zero (map tree_of nodes.now) }
{
    match nodes.first() {
        Some(first) => *first,
        None => Node::Constant { value: 0 },
    }
}
