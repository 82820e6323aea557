// Finds the first form in a tree.

ghost use Rattle.std.specs.Prelude.{◌≡◌, IfOk, IfSome};
ghost use Rattle.first_form.specs.Form.{IsFirst};
ghost use Rattle.first_form.specs.Finding.{operand_of, operator_of, call_of, expression_of, argument_of, expression_of_call, out_of_call, out_of, returns_zero, outs_of, block_of, is_main, function_of, items_of};

use crate::first::{First, FirstExpr};
use c_tree::{Arg, Block, Call, ExprKind, Function, Item, Program, Simple, Stmt};
use sat_base::{At, Memory, Width};
use sqlite_items::{Boxed, Items};
use std::alloc::Global;

/// The operators of the form.
#[derive(Clone, Copy)]
enum Operator {
    Add,
    Sub,
}

/// The operator of this name.
#[tactic(auto, unfolding(crate::specs::Finding::operator_of))]
fn operator_named(name: &[u8]) -> Option<Operator>
    ensures { result ≡ operator_of name.now }
{
    match name {
        b"add" => Some(Operator::Add),
        b"sub" => Some(Operator::Sub),
        _ => None,
    }
}

/// A call of the operator, whose name is this token.
fn call(operator: Operator, name: At, left: Boxed<FirstExpr>, right: Boxed<FirstExpr>) -> FirstExpr
    ensures { result ≡ call_of operator name left right }
{
    let At { tok, pos } = name;
    match operator {
        Operator::Add => FirstExpr::Add {
            tok,
            pos,
            left,
            right,
        },
        Operator::Sub => FirstExpr::Sub {
            tok,
            pos,
            left,
            right,
        },
    }
}

/// The number, where it is from 0 to 32767.
#[tactic(auto, unfolding(crate::specs::Finding::operand_of))]
fn operand(number: i32) -> Option<FirstExpr>
    ensures { result ≡ operand_of number }
{
    if 0 <= number && number <= 32_767 {
        Some(FirstExpr::Int(number))
    } else {
        None
    }
}

/// What stands in brackets, where it is an expression of the form.
#[cycle(expression)]
fn expression(alloc: Global, kind: &ExprKind) -> Result<Option<FirstExpr>, Memory>
    ensures { IfOk result (λ found. found ≡ expression_of kind.now) }
{
    match kind {
        ExprKind::Int(number) => Ok(operand(*number)),
        ExprKind::Call(call) => called(alloc, call),
        _ => Ok(None),
    }
}

/// A call, where it is one of an operator on two expressions of the form.
#[cycle(expression)]
#[tactic(auto, unfolding(crate::specs::Finding::call_on))]
fn called(alloc: Global, call: &Call) -> Result<Option<FirstExpr>, Memory>
    ensures { IfOk result (λ found. found ≡ expression_of_call call.now) }
{
    let [left, right] = call.args.as_slice() else {
        return Ok(None);
    };
    let Some(operator) = operator_named(call.name.name.as_bytes()) else {
        return Ok(None);
    };
    let Some(left) = argument(alloc, left)? else {
        return Ok(None);
    };
    let Some(right) = argument(alloc, right)? else {
        return Ok(None);
    };
    let left = Boxed::new(alloc, left)?;
    let right = Boxed::new(alloc, right)?;
    Ok(Some(self::call(operator, call.name.at, left, right)))
}

/// An argument, where it is an expression of the form.
#[cycle(expression)]
fn argument(alloc: Global, arg: &Arg) -> Result<Option<FirstExpr>, Memory>
    ensures { IfOk result (λ found. found ≡ argument_of arg.now) }
{
    match arg {
        Arg::Value(value) => expression(alloc, &value.kind),
        Arg::Address { .. } => Ok(None),
    }
}

/// What a call writes, where it is one of `sample_out` on an expression of the form.
#[tactic(auto, unfolding(crate::specs::Finding::out_of_call))]
fn written_by_call(alloc: Global, call: &Call) -> Result<Option<FirstExpr>, Memory>
    ensures { IfOk result (λ found. found ≡ out_of_call call.now) }
{
    if call.name.name.as_bytes() != b"sample_out".as_slice() {
        return Ok(None);
    }
    let [written] = call.args.as_slice() else {
        return Ok(None);
    };
    argument(alloc, written)
}

/// What a statement writes, where it is one of the form that writes.
fn written(alloc: Global, stmt: &Stmt) -> Result<Option<FirstExpr>, Memory>
    ensures { IfOk result (λ found. found ≡ out_of stmt.now) }
{
    let Stmt::Simple(Simple::Call(call)) = stmt else {
        return Ok(None);
    };
    written_by_call(alloc, call)
}

/// Whether the statement returns 0.
fn returns_zero(stmt: &Stmt) -> bool
    ensures { result ≡ returns_zero stmt.now }
{
    match stmt {
        Stmt::Return {
            value: Some(value),
            ..
        } => matches!(value.get().kind, ExprKind::Int(0)),
        _ => false,
    }
}

/// What the statements write, where each is one of the form that writes.
fn outs(alloc: Global, stmts: &[Stmt]) -> Result<Option<Items<FirstExpr>>, Memory>
    ensures { IfOk result (λ found. found ≡ outs_of stmts.now) }
{
    let mut outs = Items::new(alloc);
    for stmt in stmts {
        let Some(written) = written(alloc, stmt)? else {
            return Ok(None);
        };
        outs.push(written)?;
    }
    Ok(Some(outs))
}

/// What a body writes, where it has the form.
fn block(alloc: Global, block: &Block) -> Result<Option<Items<FirstExpr>>, Memory>
    ensures { IfOk result (λ found. found ≡ block_of block.now) }
{
    if !block.objects.as_slice().is_empty() {
        return Ok(None);
    }
    let Some((last, stmts)) = block.stmts.as_slice().split_last() else {
        return Ok(None);
    };
    if returns_zero(last) {
        outs(alloc, stmts)
    } else {
        Ok(None)
    }
}

/// Whether the function is an `int main ( void )`.
#[tactic(auto, unfolding(crate::specs::Finding::is_main))]
fn is_main(function: &Function) -> bool
    ensures { result ≡ is_main function.now }
{
    function.name.name.as_bytes() == b"main".as_slice()
        && matches!(function.gives, Some(Width::W32))
        && function.params.as_slice().is_empty()
}

/// What a function writes, where it is a `main` of the form.
#[tactic(auto, unfolding(crate::specs::Finding::function_of))]
fn main_outs(alloc: Global, function: &Function) -> Result<Option<Items<FirstExpr>>, Memory>
    ensures { IfOk result (λ found. found ≡ function_of function.now) }
{
    if !is_main(function) {
        return Ok(None);
    }
    match &function.body {
        Some(body) => block(alloc, body),
        None => Ok(None),
    }
}

/// What the one item writes, where it is a `main` of the form.
#[tactic(auto, unfolding(crate::specs::Finding::items_of))]
fn item_outs(alloc: Global, items: &[Item]) -> Result<Option<Items<FirstExpr>>, Memory>
    ensures { IfOk result (λ found. found ≡ items_of items.now) }
{
    match items {
        [Item::Function(function)] => main_outs(alloc, function),
        _ => Ok(None),
    }
}

/// The first form of the tree. The answer is None exactly where the tree has not the first form.
pub fn first_of(alloc: Global, program: &Program) -> Result<Option<First>, Memory>
    ensures found { IfOk result (λ found. IfSome found (λ first. IsFirst program.now first)) }
    ensures none { result ≡ Ok None → (first : First) → IsFirst program.now first → ⊥ }
{
    let Some(outs) = item_outs(alloc, program.items.as_slice())? else {
        return Ok(None);
    };
    Ok(Some(First { outs }))
}
