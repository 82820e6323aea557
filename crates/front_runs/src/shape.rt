// The shapes of what is read.

use crate::tree::read_text;
use c_tree::{Arg, BinaryMark, Block, Expr, ExprKind, Init, Item, Program, Stmt, UnaryMark};
use std::alloc::{AllocError, Global};

/// The shape of the value that the one object of a source starts with, or the `if` of the first `else` of its one
/// function.
pub fn shape_of(alloc: Global, text: &[u8]) -> Result<String, AllocError> {
    let Some(Ok(program)) = read_text(alloc, text) else {
        return String::from_str(alloc, "no tree");
    };
    if let Some(value) = initial(&program) {
        return shown(alloc, value);
    }
    match body(&program)
        .and_then(|block| block.stmts.get(0))
        .and_then(owner_of_else)
    {
        Some(tok) => format!(in alloc; "else of the if at token {tok}"),
        None => String::from_str(alloc, "no shape"),
    }
}

fn unary_text(mark: UnaryMark) -> &'static str {
    match mark {
        UnaryMark::Minus => "-",
        UnaryMark::Plus => "+",
        UnaryMark::Not => "!",
        UnaryMark::Invert => "~",
    }
}

fn binary_text(mark: BinaryMark) -> &'static str {
    match mark {
        BinaryMark::Either => "||",
        BinaryMark::Both => "&&",
        BinaryMark::BitOr => "|",
        BinaryMark::BitXor => "^",
        BinaryMark::BitAnd => "&",
        BinaryMark::Eq => "==",
        BinaryMark::Ne => "!=",
        BinaryMark::Lt => "<",
        BinaryMark::Le => "<=",
        BinaryMark::Gt => ">",
        BinaryMark::Ge => ">=",
        BinaryMark::Plus => "+",
        BinaryMark::Minus => "-",
        BinaryMark::Times => "*",
    }
}

/// An expression of numbers with square brackets around each part that has a mark, and the number of the round
/// ones around it.
fn shown(alloc: Global, e: &Expr) -> Result<String, AllocError> {
    let mut text = match &e.kind {
        ExprKind::Int(n) => format!(in alloc; "{n}")?,
        ExprKind::Unary { mark, part, .. } => {
            let part = shown(alloc, part.get())?;
            format!(in alloc; "[{}{part}]", unary_text(*mark))?
        }
        ExprKind::Binary {
            mark,
            left,
            right,
            ..
        } => {
            let left = shown(alloc, left.get())?;
            let right = shown(alloc, right.get())?;
            format!(in alloc; "[{left}{}{right}]", binary_text(*mark))?
        }
        ExprKind::Choose { cond, yes, no } => {
            let cond = shown(alloc, cond.get())?;
            let yes = shown(alloc, yes.get())?;
            let no = shown(alloc, no.get())?;
            format!(in alloc; "[{cond}?{yes}:{no}]")?
        }
        _ => String::from_str(alloc, "x")?,
    };
    if e.brackets > 0 {
        let brackets = format!(in alloc; "^{}", e.brackets)?;
        text.push_str(brackets.as_str())?;
    }
    Ok(text)
}

/// The value that the one object of a source starts with.
fn initial(program: &Program) -> Option<&Expr> {
    match program.items.get(0)? {
        Item::Objects(objects) => match &objects.decls.get(0)?.init {
            Init::One(Arg::Value(value)) => Some(value),
            _ => None,
        },
        _ => None,
    }
}

/// The statements of the one function of a source.
fn body(program: &Program) -> Option<&Block> {
    match program.items.get(0)? {
        Item::Function(function) => function.body.as_ref(),
        _ => None,
    }
}

/// The number of the token `if` to which the first `else` belongs, of two that stand one in the other.
fn owner_of_else(stmt: &Stmt) -> Option<u32> {
    match stmt {
        Stmt::If {
            at,
            no: Some(_),
            ..
        } => Some(at.tok),
        Stmt::If { yes, .. } => match yes.get() {
            Stmt::If {
                at,
                no: Some(_),
                ..
            } => Some(at.tok),
            _ => None,
        },
        _ => None,
    }
}
