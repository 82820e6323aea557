// What the form of an expression shows, and what it weighs.

ghost use Rattle.std.specs.Prelude.{◌≡◌, ◌+◌, IfOk};
ghost use Rattle.ir_arena.specs.Placed.{target_of, tree_of, trees_at};
ghost use Rattle.expression_code.specs.Code.{fits_sixteen, gives_sixteen, has_sixteen, is_sixteen, own_weight, read_sixteen, weight_by, weight_of, weights_of};

use c_tree::BinaryMark;
use ir_arena::{Node, Target};
use operator_meaning::{Object, SiteKind, gives};
use sat_base::{Memory, Width};
use source_runs::Shape;

fn is_sixteen(width: Width) -> bool
    ensures { result ≡ is_sixteen width }
{
    width == Width::W16
}

fn has_sixteen(value: i32) -> bool
    ensures { result ≡ has_sixteen value }
{
    (-32768..=32767).contains(&value)
}

fn gives_sixteen(kind: SiteKind) -> bool
    ensures { result ≡ gives_sixteen kind }
{
    match kind {
        SiteKind::Call(op) => is_sixteen(gives(op)),
        _ => false,
    }
}

fn reads_sixteen(objects: &[Object], target: &Target<'_>) -> bool
    ensures { result ≡ read_sixteen objects.now (target_of target.now) }
{
    match *target {
        Target::Variable { object } => is_sixteen(Shape::of(objects, object).width),
        Target::Element { .. } | Target::ThroughView { .. } => false,
    }
}

/// Whether the form of an expression shows that its value has 16 bits.
pub fn fits_sixteen(objects: &[Object], tree: &Node<'_>) -> bool
    ensures { result ≡ fits_sixteen objects.now (tree_of tree.now) }
{
    match *tree {
        Node::Constant { value } => has_sixteen(value),
        Node::Read { target } => reads_sixteen(objects, &target),
        Node::Operate { kind, .. } => gives_sixteen(kind),
        Node::Convert { width, .. } => is_sixteen(width),
        Node::Address { .. }
        | Node::Not { .. }
        | Node::Invert { .. }
        | Node::Binary { .. }
        | Node::Choose { .. }
        | Node::Call { .. }
        | Node::ReadFlag { .. }
        | Node::Left
        | Node::Write { .. }
        | Node::Step { .. }
        | Node::WriteFlag { .. }
        | Node::Out { .. }
        | Node::AddCount { .. }
        | Node::Start { .. }
        | Node::Empty
        | Node::Block { .. }
        | Node::If { .. }
        | Node::Loop { .. }
        | Node::Leave { .. }
        | Node::Return { .. } => false,
    }
}

// Operators alone are counted.
fn own_weight(kind: SiteKind, weight: u32) -> u32
    ensures { result ≡ own_weight kind weight }
{
    match kind {
        SiteKind::Call(_) => weight,
        _ => 0,
    }
}

// Where the right operand may be left out, its weight and that of the left one are brought up at once.
fn weight_by(mark: BinaryMark, left: u32, right: u32) -> Result<u32, Memory>
    ensures { IfOk result (λ weight. weight ≡ weight_by mark left right) }
{
    match mark {
        BinaryMark::Both | BinaryMark::Either => Ok(0),
        _ => sum(left, right),
    }
}

/// The sum of two weights.
pub fn sum(left: u32, right: u32) -> Result<u32, Memory>
    ensures { IfOk result (λ sum. sum ≡ left + right) }
{
    match left.checked_add(right) {
        Some(sum) => Ok(sum),
        None => Err(Memory),
    }
}

/// The weight by which the count lags behind after an expression. Where it has not 32 bits, Memory is answered; no
/// source weighs so much.
#[cycle(weight)]
pub fn weight_of(tree: &Node<'_>) -> Result<u32, Memory>
    ensures { IfOk result (λ weight. weight ≡ weight_of (tree_of tree.now)) }
{
    match *tree {
        Node::Operate {
            kind,
            operands,
            weight,
            ..
        } => sum(weights_of(operands)?, own_weight(kind, weight)),
        Node::Convert { part, .. } => weight_of(part),
        Node::Not { part } => weight_of(part),
        Node::Invert { part } => weight_of(part),
        Node::Binary { mark, left, right } => weight_by(mark, weight_of(left)?, weight_of(right)?),
        Node::Constant { .. }
        | Node::Read { .. }
        | Node::Address { .. }
        | Node::Choose { .. }
        | Node::Call { .. }
        | Node::ReadFlag { .. }
        | Node::Left
        | Node::Write { .. }
        | Node::Step { .. }
        | Node::WriteFlag { .. }
        | Node::Out { .. }
        | Node::AddCount { .. }
        | Node::Start { .. }
        | Node::Empty
        | Node::Block { .. }
        | Node::If { .. }
        | Node::Loop { .. }
        | Node::Leave { .. }
        | Node::Return { .. } => Ok(0),
    }
}

// The weight of operands, one after the other.
#[cycle(weight)]
fn weights_of(trees: &[Node<'_>]) -> Result<u32, Memory>
    ensures { IfOk result (λ weight. weight ≡ weights_of (trees_at trees.now)) }
{
    let mut weight = 0;
    for tree in trees {
        weight = sum(weight, weight_of(tree)?)?;
    }
    Ok(weight)
}
