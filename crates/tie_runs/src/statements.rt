// Tied statements as text.

use crate::expressions::{argument, call, expression, marked, place, site};
use c_tree::AssignMark;
use c_typed::{Start, TypedBlock, TypedExpr, TypedSimple, TypedStmt};
use sqlite_items::Boxed;
use written_text::{Written, push_numbered, push_word};

fn mark(mark: AssignMark) -> &'static str {
    match mark {
        AssignMark::Plain => "=",
        AssignMark::Plus => "+=",
        AssignMark::Minus => "-=",
        AssignMark::Times => "*=",
        AssignMark::And => "&=",
        AssignMark::Or => "|=",
        AssignMark::Xor => "^=",
    }
}

fn simple(out: &mut Written, one: &TypedSimple) {
    match one {
        TypedSimple::Assign {
            at,
            place: target,
            mark: sign,
            mark_at,
            site: number,
            value,
        } => {
            push_numbered(out, "", at.tok);
            push_word(out, ":");
            place(out, target.get());
            push_word(out, " ");
            marked(out, mark(*sign), mark_at.tok, *number);
            expression(out, value.get())
        },
        TypedSimple::Step {
            at,
            place: target,
            up,
            mark_at,
            site: number,
        } => {
            push_numbered(out, "", at.tok);
            push_word(out, ":");
            place(out, target.get());
            push_word(out, if *up { " ++" } else { " --" });
            push_numbered(out, "@", mark_at.tok);
            site(out, *number)
        },
        TypedSimple::SetOverflow { at, value } => {
            push_numbered(out, "Overflow@", at.tok);
            push_word(out, " = ");
            expression(out, value.get())
        },
        TypedSimple::Call(called) => call(out, called),
    }
}

fn simples(out: &mut Written, list: &[TypedSimple]) {
    for one in list {
        simple(out, one);
        push_word(out, ",");
    }
}

fn if_any(out: &mut Written, e: &Option<Boxed<TypedExpr>>) {
    match e {
        Some(e) => expression(out, e.get()),
        None => push_word(out, "-"),
    }
}

fn start(out: &mut Written, begun: &Start) {
    push_numbered(out, "o", begun.object);
    if let Some(value) = &begun.value {
        push_word(out, "=");
        argument(out, value);
    }
    push_word(out, ";")
}

#[cycle(statement)]
pub fn block(out: &mut Written, whole: &TypedBlock) {
    head(out, "{", whole.at.tok);
    starts(out, whole.objects.as_slice());
    push_word(out, "|");
    for stmt in whole.stmts.as_slice() {
        statement(out, stmt);
        push_word(out, ";");
    }
    push_word(out, "}")
}

fn starts(out: &mut Written, list: &[Start]) {
    for begun in list {
        start(out, begun);
    }
}

/// A word with its token, before what follows.
fn head(out: &mut Written, name: &str, at: u32) {
    word(out, name, at);
    push_word(out, " ")
}

#[cycle(statement)]
fn statement(out: &mut Written, stmt: &TypedStmt) {
    match stmt {
        TypedStmt::Empty { at } => word(out, "empty", at.tok),
        TypedStmt::Block(inner) => block(out, inner),
        TypedStmt::Simple(one) => simple(out, one),
        TypedStmt::If { at, cond, yes, no } => {
            head(out, "if", at.tok);
            expression(out, cond.get());
            push_word(out, " then ");
            statement(out, yes.get());
            push_word(out, " else ");
            match no {
                Some(no) => statement(out, no.get()),
                None => push_word(out, "-"),
            }
        },
        TypedStmt::While { at, cond, body } => {
            head(out, "while", at.tok);
            expression(out, cond.get());
            push_word(out, " do ");
            statement(out, body.get())
        },
        TypedStmt::Do { at, body, cond } => {
            head(out, "do", at.tok);
            statement(out, body.get());
            push_word(out, " while ");
            expression(out, cond.get())
        },
        TypedStmt::For {
            at,
            first,
            cond,
            last,
            body,
        } => {
            head(out, "for", at.tok);
            turns(out, first.as_slice(), cond, last.as_slice());
            statement(out, body.get())
        },
        TypedStmt::Break { at } => word(out, "break", at.tok),
        TypedStmt::Continue { at } => word(out, "continue", at.tok),
        TypedStmt::Return { at, value } => {
            head(out, "return", at.tok);
            if_any(out, value)
        },
    }
}

/// What stands in the brackets of a `for`.
fn turns(
    out: &mut Written,
    first: &[TypedSimple],
    cond: &Option<Boxed<TypedExpr>>,
    last: &[TypedSimple],
) {
    push_word(out, "(");
    simples(out, first);
    push_word(out, " | ");
    if_any(out, cond);
    push_word(out, " | ");
    simples(out, last);
    push_word(out, ") ")
}

fn word(out: &mut Written, name: &str, at: u32) {
    push_word(out, name);
    push_numbered(out, "@", at)
}
