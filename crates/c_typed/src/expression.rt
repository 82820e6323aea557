// Expressions.

use crate::call::TypedCall;
use crate::place::TypedPlace;
use c_tree::{BinaryMark, UnaryMark};
use sat_base::{At, Width};
use sqlite_items::Boxed;

/// An expression (C90, 6.3).
#[cycle(expression)]
#[derive(Drop)]
pub struct TypedExpr {
    /// Its first token. The brackets around it are part of it.
    pub at: At,
    /// The number of pairs of brackets directly around it; 0 around an implied conversion.
    pub brackets: u32,
    /// What stands in the brackets.
    pub kind: TypedExprKind,
}

/// What stands in an expression's brackets.
#[cycle(expression)]
#[derive(Drop)]
pub enum TypedExprKind {
    /// A number, by its value.
    Int(i32),
    /// The value of an object or of a part of it.
    Read(Boxed<TypedPlace>),
    /// The value of `Overflow`.
    ReadOverflow {
        /// The word `Overflow`.
        word_at: At,
    },
    /// A mark before its operand.
    Unary {
        mark: UnaryMark,
        mark_at: At,
        /// The site at the mark, which `-` has.
        site: Option<u32>,
        part: Boxed<TypedExpr>,
    },
    /// A mark between its operands.
    Binary {
        mark: BinaryMark,
        mark_at: At,
        /// The site at the mark, which `+`, `-` and `*` have.
        site: Option<u32>,
        left: Boxed<TypedExpr>,
        right: Boxed<TypedExpr>,
    },
    /// `( type ) part`: a conversion that is written out.
    Cast {
        width: Width,
        part: Boxed<TypedExpr>,
    },
    /// The implied conversion of an argument, an assigned, an initial or a returned value.
    Convert {
        width: Width,
        part: Boxed<TypedExpr>,
    },
    /// `cond ? yes : no`
    Choose {
        cond: Boxed<TypedExpr>,
        yes: Boxed<TypedExpr>,
        no: Boxed<TypedExpr>,
    },
    /// A call whose value is used.
    Call(TypedCall),
}
