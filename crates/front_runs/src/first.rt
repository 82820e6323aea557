// The first form of texts.

use crate::tree::read_text;
use first_form::FirstExpr;
use std::alloc::{AllocError, Global};

/// What a source of the first form writes, or `none`.
pub fn first_of(alloc: Global, text: &[u8]) -> Result<String, AllocError> {
    let Some(Ok(program)) = read_text(alloc, text) else {
        return String::from_str(alloc, "no tree");
    };
    let Ok(found) = first_form::first_of(alloc, &program) else {
        return Err(AllocError);
    };
    let Some(first) = found else {
        return String::from_str(alloc, "none");
    };
    let mut answer = String::from_str(alloc, "found ")?;
    for written in first.outs.as_slice() {
        answer.push_str(shown(alloc, written)?.as_str())?;
        answer.push_str(";")?;
    }
    Ok(answer)
}

/// The expression, with the number and the place of each called name.
fn shown(alloc: Global, e: &FirstExpr) -> Result<String, AllocError> {
    let (name, tok, pos, left, right) = match e {
        FirstExpr::Int(n) => return format!(in alloc; "{n}"),
        FirstExpr::Add {
            tok,
            pos,
            left,
            right,
        } => ("add", tok, pos, left, right),
        FirstExpr::Sub {
            tok,
            pos,
            left,
            right,
        } => ("sub", tok, pos, left, right),
    };
    let left = shown(alloc, left.get())?;
    let right = shown(alloc, right.get())?;
    format!(in alloc; "{name}@{tok}@{}:{}({left}, {right})", pos.line, pos.col)
}
