// The code of expressions.

ghost use Rattle.std.specs.Prelude.{◌≡◌, ◌+◌, ◌++◌, [], ◌∷◌, drop, length, pos, IfOk, OnOk};
ghost use Rattle.ir_arena.specs.Placed.{target_of, tree_of, trees_at};
ghost use Rattle.operator_lowering.specs.Sites.{operand_count};
ghost use Rattle.code_entries.specs.Entries.{entries_of_operands, entries_of_value};
ghost use Rattle.code_pieces.specs.Pieces.{all_entries, all_words, Appends, Consists, Extends};
ghost use Rattle.data_layout.specs.Layouts.{layout_of};
ghost use Rattle.expression_words.specs.Branches.{behind_code};
ghost use Rattle.code_lines.specs.Own.{Addi};
ghost use Rattle.code_stacks.specs.Operands.{finish_code};
ghost use Rattle.code_stacks.specs.Places.{stack_register};
ghost use Rattle.expression_code.specs.Code.{constant_code, counted_code, expression_code, first_width, operands_code, over_code, pass_code, read_code, site_code, truth_code, weight_of, widths_of};

use crate::emission::Emission;
use crate::forms::{fits_sixteen, sum, weight_of};
use c_tree::BinaryMark;
use code_jumps::Test;
use code_pieces::jumps::{Compared, is_near, reach_of};
use code_pieces::numbers::signed;
use code_pieces::sites::{operand_count, operand_register, site_registers, stack_register};
use code_pieces::{Code, Entry};
use ir_arena::{Node, Target};
use operator_meaning::{SiteKind, arity, takes};
use rv_encode::Instr;
use rv_encode::register::{OVERFLOW, ZERO};
use sat_base::{Memory, Width};

// The width of the place of an operand; 32 bits where the site has no such place.
fn width_at(kind: SiteKind, place: u32) -> Width
    ensures { result ≡ first_width (drop place (widths_of kind)) }
{
    match kind {
        SiteKind::Call(op) => {
            if place < arity(op) {
                takes(op, place)
            } else {
                Width::W32
            }
        }
        SiteKind::Sum
        | SiteKind::Difference
        | SiteKind::Product
        | SiteKind::Opposite
        | SiteKind::Bound(_)
        | SiteKind::ViewBound
        | SiteKind::ViewEdge
        | SiteKind::Sample => Width::W32,
    }
}

/// Code for the case that a value is not 0, and for the case that it is.
#[derive(Drop)]
struct Branches {
    this: Code,
    other: Code,
}

impl Emission<'_> {
    // Appends the value of a variable; nothing of another place.
    fn read(&self, code: &mut Code, target: &Target<'_>, depth: u32) -> Result<(), Memory>
        ensures { OnOk result (Extends code.old code.new (read_code self.now.objects.now (layout_of self.now.layout.now) (target_of target.now) depth)) }
    {
        match *target {
            Target::Variable { object } => {
                code.push_load(stack_register(depth), self.layout.slot(object))?;
                self.finished(code, depth)
            }
            Target::Element { .. } | Target::ThroughView { .. } => Ok(()),
        }
    }

    // Appends the value of Overflow.
    fn flag(&self, code: &mut Code, depth: u32) -> Result<(), Memory>
        ensures { OnOk result (Extends code.old code.new (Addi (stack_register depth) 27 (pos 0) ∷ finish_code (layout_of self.now.layout.now) depth)) }
    {
        code.push_own(Instr::Addi {
            rd: stack_register(depth),
            rs1: OVERFLOW,
            imm: 0,
        })?;
        self.finished(code, depth)
    }

    // Appends the words of a site over the values on top.
    fn site(&self, code: &mut Code, entry: Entry, depth: u32) -> Result<(), Memory>
        ensures { OnOk result (Appends code.old code.new (site_code (layout_of self.now.layout.now) depth (operand_count entry.kind) entry.site entry.kind) (entry ∷ [])) }
    {
        let count = operand_count(entry.kind);
        self.fetched(code, depth, count)?;
        code.push_site(self.alloc, entry, site_registers(depth, count))?;
        self.finished(code, depth)
    }

    // Appends a branch over so many words where the value on top, which it takes, is 0. Before it a weight is brought up.
    fn over(&self, code: &mut Code, depth: u32, weight: u32, words: u32) -> Result<(), Memory>
        ensures { OnOk result (Extends code.old code.new (over_code (layout_of self.now.layout.now) depth weight words)) }
    {
        self.fetched(code, depth, 1)?;
        code.push_flush(weight)?;
        let pair = Compared {
            first: operand_register(depth, 0),
            second: ZERO,
        };
        code.push_where(reach_of(words), Test::Equal, pair, signed(words)?)
    }

    // Appends the branches behind a value with this weight, which they take.
    fn chosen(
        &self,
        code: &mut Code,
        depth: u32,
        weight: u32,
        mut branches: Branches,
    ) -> Result<(), Memory>
        ensures { OnOk result (Appends code.old code.new (behind_code (layout_of self.now.layout.now) depth weight (all_words branches.this) (all_words branches.other)) (all_entries branches.this ++ all_entries branches.other)) }
    {
        let words = branches.other.len();
        branches.this.push_past(is_near(words), signed(words)?)?;
        self.over(code, depth, weight, branches.this.len())?;
        code.append(&branches.this)?;
        code.append(&branches.other)
    }

    // The code of an expression by itself, with its weight in the count.
    #[cycle(expression)]
    fn counted(&self, tree: &Node<'_>, depth: u32) -> Result<Code, Memory>
        ensures { IfOk result (λ code. Consists code (counted_code (expression_code self.now.objects.now (layout_of self.now.layout.now) (tree_of tree.now) depth) (weight_of (tree_of tree.now))) (entries_of_value (tree_of tree.now))) }
    {
        let mut code = Code::new(self.alloc);
        self.expression(&mut code, tree, depth)?;
        code.push_flush(weight_of(tree)?)?;
        Ok(code)
    }

    // The code of the truth of an expression by itself, with its weight in the count.
    #[cycle(expression)]
    fn truth_of(&self, tree: &Node<'_>, depth: u32) -> Result<Code, Memory>
        ensures { IfOk result (λ code. Consists code (truth_code (layout_of self.now.layout.now) depth (expression_code self.now.objects.now (layout_of self.now.layout.now) (tree_of tree.now) depth) (weight_of (tree_of tree.now))) (entries_of_value (tree_of tree.now))) }
    {
        let mut code = self.counted(tree, depth)?;
        self.truth(&mut code, depth)?;
        Ok(code)
    }

    // The code of a number by itself.
    fn number(&self, value: i32, depth: u32) -> Result<Code, Memory>
        ensures { IfOk result (λ code. Consists code (constant_code (layout_of self.now.layout.now) value depth) []) }
    {
        let mut code = Code::new(self.alloc);
        self.constant(&mut code, value, depth)?;
        Ok(code)
    }

    // Appends operands, each converted to the width of its place, one above the other.
    #[cycle(expression)]
    fn operands(
        &self,
        code: &mut Code,
        kind: SiteKind,
        operands: &[Node<'_>],
        depth: u32,
    ) -> Result<(), Memory>
        ensures { OnOk result (Appends code.old code.new (operands_code self.now.objects.now (layout_of self.now.layout.now) (widths_of kind) (trees_at operands.now) depth) (entries_of_operands (trees_at operands.now))) }
    {
        let mut place = 0;
        for operand in operands {
            let at = sum(depth, place)?;
            self.expression(code, operand, at)?;
            let shown = fits_sixteen(self.objects, operand);
            self.converted(code, width_at(kind, place), shown, at)?;
            place = sum(place, 1)?;
        }
        Ok(())
    }

    /// Appends the code of an expression, which leaves its value at this place of the stack.
    #[cycle(expression)]
    pub fn expression(&self, code: &mut Code, tree: &Node<'_>, depth: u32) -> Result<(), Memory>
        ensures { OnOk result (Appends code.old code.new (expression_code self.now.objects.now (layout_of self.now.layout.now) (tree_of tree.now) depth) (entries_of_value (tree_of tree.now))) }
    {
        match *tree {
            Node::Constant { value } => self.constant(code, value, depth),
            Node::Read { target } => self.read(code, &target, depth),
            Node::ReadFlag { .. } => self.flag(code, depth),
            Node::Operate {
                site,
                kind,
                operands,
                ..
            } => {
                self.operands(code, kind, operands, depth)?;
                self.site(code, Entry { site, kind }, depth)
            }
            Node::Convert { width, part, .. } => {
                self.expression(code, part, depth)?;
                self.converted(code, width, fits_sixteen(self.objects, part), depth)
            }
            Node::Not { part } => {
                self.expression(code, part, depth)?;
                self.negated(code, depth)
            }
            Node::Invert { part } => {
                self.expression(code, part, depth)?;
                self.inverted(code, depth)
            }
            Node::Binary { mark, left, right } => match mark {
                BinaryMark::Both => {
                    self.expression(code, left, depth)?;
                    let branches = Branches {
                        this: self.truth_of(right, depth)?,
                        other: self.number(0, depth)?,
                    };
                    self.chosen(code, depth, weight_of(left)?, branches)
                }
                BinaryMark::Either => {
                    self.expression(code, left, depth)?;
                    let branches = Branches {
                        this: self.number(1, depth)?,
                        other: self.truth_of(right, depth)?,
                    };
                    self.chosen(code, depth, weight_of(left)?, branches)
                }
                BinaryMark::BitOr
                | BinaryMark::BitXor
                | BinaryMark::BitAnd
                | BinaryMark::Eq
                | BinaryMark::Ne
                | BinaryMark::Lt
                | BinaryMark::Le
                | BinaryMark::Gt
                | BinaryMark::Ge
                | BinaryMark::Plus
                | BinaryMark::Minus
                | BinaryMark::Times => {
                    self.expression(code, left, depth)?;
                    self.expression(code, right, sum(depth, 1)?)?;
                    self.marked(code, mark, depth)
                }
            },
            Node::Choose { cond, yes, no } => {
                self.expression(code, cond, depth)?;
                let branches = Branches {
                    this: self.counted(yes, depth)?,
                    other: self.counted(no, depth)?,
                };
                self.chosen(code, depth, weight_of(cond)?, branches)
            }
            Node::Address { .. }
            | Node::Call { .. }
            | Node::Left
            | Node::Write { .. }
            | Node::Step { .. }
            | Node::WriteFlag { .. }
            | Node::Out { .. }
            | Node::AddCount { .. }
            | Node::Start { .. }
            | Node::Empty
            | Node::Block { .. }
            | Node::If { .. }
            | Node::Loop { .. }
            | Node::Leave { .. }
            | Node::Return { .. } => Ok(()),
        }
    }
}
