// Tied expressions as text. A token goes by its number, a site by `#` and its number.

use c_tree::{BinaryMark, UnaryMark};
use c_typed::{Callee, TypedArg, TypedCall, TypedExpr, TypedExprKind, TypedPlace};
use sat_base::Width;
use written_text::{Written, push_number, push_numbered, push_word};

pub fn bits(width: Width) -> u32 {
    match width {
        Width::W16 => 16,
        Width::W32 => 32,
    }
}

pub fn site(out: &mut Written, number: Option<u32>) {
    if let Some(number) = number {
        push_numbered(out, "#", number);
    }
}

fn unary(mark: UnaryMark) -> &'static str {
    match mark {
        UnaryMark::Minus => "-",
        UnaryMark::Plus => "+",
        UnaryMark::Not => "!",
        UnaryMark::Invert => "~",
    }
}

fn binary(mark: BinaryMark) -> &'static str {
    match mark {
        BinaryMark::Either => "||",
        BinaryMark::Both => "&&",
        BinaryMark::BitOr => "|",
        BinaryMark::BitXor => "^",
        BinaryMark::BitAnd => "&",
        BinaryMark::Eq => "==",
        BinaryMark::Ne => "!=",
        BinaryMark::Lt => "<",
        BinaryMark::Le => "<=",
        BinaryMark::Gt => ">",
        BinaryMark::Ge => ">=",
        BinaryMark::Plus => "+",
        BinaryMark::Minus => "-",
        BinaryMark::Times => "*",
    }
}

fn callee(out: &mut Written, called: Callee) {
    match called {
        Callee::Function(number) => push_numbered(out, "f", number),
        Callee::Operator(op) => push_word(out, operator_meaning::name(op)),
        Callee::Move16 => push_word(out, "move16"),
        Callee::Move32 => push_word(out, "move32"),
        Callee::Logic16 => push_word(out, "logic16"),
        Callee::Logic32 => push_word(out, "logic32"),
        Callee::Test => push_word(out, "test"),
        Callee::SampleIn => push_word(out, "sample_in"),
        Callee::SampleLeft => push_word(out, "sample_left"),
        Callee::SampleOut => push_word(out, "sample_out"),
    }
}

/// A mark, the token that it stands at, and its site.
pub fn marked(out: &mut Written, mark: &str, at: u32, number: Option<u32>) {
    push_word(out, mark);
    push_numbered(out, "@", at);
    site(out, number);
    push_word(out, " ");
}

/// An expression: its first token, a `'` for each pair of brackets, and what stands in them.
#[cycle(expression)]
pub fn expression(out: &mut Written, e: &TypedExpr) {
    push_numbered(out, "", e.at.tok);
    if e.brackets != 0 {
        push_numbered(out, "'", e.brackets);
    }
    push_word(out, ":");
    kind(out, &e.kind)
}

/// A part of an expression, between two words.
#[cycle(expression)]
fn part_between(out: &mut Written, before: &str, part: &TypedExpr, after: &str) {
    push_word(out, before);
    expression(out, part);
    push_word(out, after)
}

#[cycle(expression)]
fn kind(out: &mut Written, inside: &TypedExprKind) {
    match inside {
        TypedExprKind::Int(value) => push_number(out, i64::from(*value)),
        TypedExprKind::Read(read) => place(out, read.get()),
        TypedExprKind::ReadOverflow { word_at } => push_numbered(out, "Overflow@", word_at.tok),
        TypedExprKind::Unary {
            mark,
            mark_at,
            site: number,
            part,
        } => {
            push_word(out, "(");
            marked(out, unary(*mark), mark_at.tok, *number);
            part_between(out, "", part.get(), ")")
        },
        TypedExprKind::Binary {
            mark,
            mark_at,
            site: number,
            left,
            right,
        } => {
            part_between(out, "(", left.get(), " ");
            marked(out, binary(*mark), mark_at.tok, *number);
            part_between(out, "", right.get(), ")")
        },
        TypedExprKind::Cast { width, part } => {
            push_numbered(out, "cast", bits(*width));
            part_between(out, "(", part.get(), ")")
        },
        TypedExprKind::Convert { width, part } => {
            push_numbered(out, "to", bits(*width));
            part_between(out, "(", part.get(), ")")
        },
        TypedExprKind::Choose { cond, yes, no } => {
            part_between(out, "(", cond.get(), " ? ");
            expression(out, yes.get());
            part_between(out, " : ", no.get(), ")")
        },
        TypedExprKind::Call(called) => call(out, called),
    }
}

fn object(out: &mut Written, number: u32, at: u32) {
    push_numbered(out, "o", number);
    push_numbered(out, "@", at);
}

/// A place, whose object goes by its number.
#[cycle(expression)]
pub fn place(out: &mut Written, named: &TypedPlace) {
    match named {
        TypedPlace::Plain { at, object: named } => object(out, *named, at.tok),
        TypedPlace::Index {
            at,
            object: named,
            mark_at,
            site: number,
            index,
        } => {
            object(out, *named, at.tok);
            marked(out, "[", mark_at.tok, *number);
            part_between(out, "", index.get(), "]")
        },
        TypedPlace::Index2 {
            at,
            object: named,
            first_at,
            first_site,
            first,
            second_at,
            second_site,
            second,
        } => {
            object(out, *named, at.tok);
            marked(out, "[", first_at.tok, *first_site);
            part_between(out, "", first.get(), "]");
            marked(out, "[", second_at.tok, *second_site);
            part_between(out, "", second.get(), "]")
        },
        TypedPlace::Deref {
            star_at,
            site: number,
            at,
            object: named,
        } => {
            marked(out, "*", star_at.tok, *number);
            object(out, *named, at.tok)
        },
    }
}

#[cycle(expression)]
pub fn call(out: &mut Written, called: &TypedCall) {
    callee(out, called.callee);
    push_numbered(out, "@", called.at.tok);
    site(out, called.site);
    push_word(out, "(");
    for arg in called.args.as_slice() {
        argument(out, arg);
        push_word(out, ";");
    }
    push_word(out, ")")
}

#[cycle(expression)]
pub fn argument(out: &mut Written, arg: &TypedArg) {
    match arg {
        TypedArg::Value(value) => expression(out, value),
        TypedArg::Address { at, place: given } => {
            push_numbered(out, "&@", at.tok);
            push_word(out, " ");
            place(out, given)
        },
    }
}
