// Where the parts of statements begin.

use crate::tree::read_text;
use c_tree::{Arg, Expr, ExprKind, Item, Program, Simple, Stmt};
use std::alloc::{AllocError, Global};

/// The first statement of the one function of a source: of each statement in it, of their conditions, values and steps
/// and of the arguments of their calls, the number of the first token.
pub fn places_of(alloc: Global, text: &[u8]) -> Result<String, AllocError> {
    let Some(Ok(program)) = read_text(alloc, text) else {
        return String::from_str(alloc, "no tree");
    };
    match first_statement(&program) {
        Some(stmt) => of_statement(alloc, stmt),
        None => String::from_str(alloc, "no statement"),
    }
}

/// The number of the first token of each item of a source.
pub fn items_of(alloc: Global, text: &[u8]) -> Result<String, AllocError> {
    let Some(Ok(program)) = read_text(alloc, text) else {
        return String::from_str(alloc, "no tree");
    };
    let mut answer = String::from_str(alloc, "items at")?;
    for item in program.items.as_slice() {
        let tok = item.at().tok;
        answer.push_str(format!(in alloc; " {tok}")?.as_str())?;
    }
    Ok(answer)
}

fn first_statement(program: &Program) -> Option<&Stmt> {
    match program.items.get(0)? {
        Item::Function(function) => function.body.as_ref()?.stmts.get(0),
        _ => None,
    }
}

fn of_statement(alloc: Global, stmt: &Stmt) -> Result<String, AllocError> {
    let at = stmt.at().tok;
    match stmt {
        Stmt::If { cond, yes, no, .. } => {
            let cond = of_expression(alloc, cond.get())?;
            let yes = of_statement(alloc, yes.get())?;
            match no {
                Some(no) => {
                    let no = of_statement(alloc, no.get())?;
                    format!(in alloc; "if {at} ({cond}) {yes} else {no}")
                }
                None => format!(in alloc; "if {at} ({cond}) {yes}"),
            }
        }
        Stmt::While { cond, body, .. } => {
            let cond = of_expression(alloc, cond.get())?;
            let body = of_statement(alloc, body.get())?;
            format!(in alloc; "while {at} ({cond}) {body}")
        }
        Stmt::Do { body, cond, .. } => {
            let body = of_statement(alloc, body.get())?;
            let cond = of_expression(alloc, cond.get())?;
            format!(in alloc; "do {at} {body} ({cond})")
        }
        Stmt::For { last, body, .. } => {
            let body = of_statement(alloc, body.get())?;
            match last.get(0) {
                Some(step) => format!(in alloc; "for {at} (;; {}) {body}", step.at().tok),
                None => format!(in alloc; "for {at} (;;) {body}"),
            }
        }
        Stmt::Block(block) => match block.stmts.get(0) {
            Some(first) => {
                let first = of_statement(alloc, first)?;
                format!(in alloc; "block {at} [{first}]")
            }
            None => format!(in alloc; "block {at}"),
        },
        Stmt::Simple(Simple::Assign { value, .. }) => {
            let value = of_expression(alloc, value.get())?;
            format!(in alloc; "assignment {at} = {value}")
        }
        _ => format!(in alloc; "statement {at}"),
    }
}

fn of_expression(alloc: Global, e: &Expr) -> Result<String, AllocError> {
    let at = e.at.tok;
    match &e.kind {
        ExprKind::Unary { part, .. } => {
            let part = part.get();
            format!(in alloc; "{at} of {} in {} brackets", part.at.tok, part.brackets)
        }
        ExprKind::Call(call) => match call.args.get(0) {
            Some(Arg::Address { at: first, .. }) => format!(in alloc;
                "{at} of the address at {}",
                first.tok
            ),
            Some(arg) => format!(in alloc; "{at} of {}", arg.at().tok),
            None => format!(in alloc; "{at}"),
        },
        _ => format!(in alloc; "{at}"),
    }
}
