// Expressions.

ghost use Rattle.std.specs.Prelude.{◌≡◌, ◌+◌, ◌<◌, ◌^◌, IfOk};
ghost use Rattle.c_tree.specs.Starts.{start_of_place};

use crate::call::Call;
use crate::place::Place;
use sat_base::{At, Memory, Width};
use sqlite_items::Boxed;
use std::alloc::Global;

/// An expression (C90, 6.3).
#[cycle(expression)]
#[derive(Drop)]
pub struct Expr {
    /// Its first token. The brackets around it are part of it.
    pub at: At,
    /// The number of pairs of brackets directly around it. Those of calls, casts and statements are not
    /// among them.
    pub brackets: u32,
    /// What stands in the brackets.
    pub kind: ExprKind,
}

impl Expr {
    /// The expression without brackets around it that begins at this token.
    pub fn new(at: At, kind: ExprKind) -> Expr
        ensures { result ≡ record { at = at; brackets = 0; kind = kind } }
    {
        Expr {
            at,
            brackets: 0,
            kind,
        }
    }

    /// The expression in one more pair of brackets, whose `(` is this token.
    pub fn in_brackets(self, at: At) -> Expr
        requires { self.brackets + 1 < 2 ^ 32 }
        ensures { result ≡ record { at = at; brackets = self.brackets + 1; kind = self.kind } }
    {
        Expr {
            at,
            brackets: self.brackets + 1,
            kind: self.kind,
        }
    }

    /// What reads this place.
    pub fn read(alloc: Global, place: Place) -> Result<Expr, Memory>
        ensures { IfOk result (λ e. e ≡ record { at = start_of_place place; brackets = 0; kind = ExprKind.Read place }) }
    {
        let at = place.at();
        let place = Boxed::new(alloc, place)?;
        Ok(Expr::new(at, ExprKind::Read(place)))
    }

    /// `mark part`
    pub fn unary(alloc: Global, mark: UnaryMark, mark_at: At, part: Expr) -> Result<Expr, Memory>
        ensures { IfOk result (λ e. e ≡ record { at = mark_at; brackets = 0; kind = ExprKind.Unary mark mark_at part }) }
    {
        let part = Boxed::new(alloc, part)?;
        let kind = ExprKind::Unary {
            mark,
            mark_at,
            part,
        };
        Ok(Expr::new(mark_at, kind))
    }

    /// `left mark right`
    pub fn binary(
        alloc: Global,
        mark: BinaryMark,
        mark_at: At,
        left: Expr,
        right: Expr,
    ) -> Result<Expr, Memory>
        ensures { IfOk result (λ e. e ≡ record { at = left.at; brackets = 0; kind = ExprKind.Binary mark mark_at left right }) }
    {
        let at = left.at;
        let left = Boxed::new(alloc, left)?;
        let right = Boxed::new(alloc, right)?;
        let kind = ExprKind::Binary {
            mark,
            mark_at,
            left,
            right,
        };
        Ok(Expr::new(at, kind))
    }

    /// `( type ) part`, whose `(` is this token.
    pub fn cast(alloc: Global, at: At, width: Width, part: Expr) -> Result<Expr, Memory>
        ensures { IfOk result (λ e. e ≡ record { at = at; brackets = 0; kind = ExprKind.Cast width part }) }
    {
        let part = Boxed::new(alloc, part)?;
        Ok(Expr::new(at, ExprKind::Cast { width, part }))
    }

    /// `cond ? yes : no`
    pub fn choose(alloc: Global, cond: Expr, yes: Expr, no: Expr) -> Result<Expr, Memory>
        ensures { IfOk result (λ e. e ≡ record { at = cond.at; brackets = 0; kind = ExprKind.Choose cond yes no }) }
    {
        let at = cond.at;
        let cond = Boxed::new(alloc, cond)?;
        let yes = Boxed::new(alloc, yes)?;
        let no = Boxed::new(alloc, no)?;
        Ok(Expr::new(at, ExprKind::Choose { cond, yes, no }))
    }

    /// The call as an expression.
    pub fn call(call: Call) -> Expr
        ensures { result ≡ record { at = call.name.at; brackets = 0; kind = ExprKind.Call call } }
    {
        Expr::new(call.name.at, ExprKind::Call(call))
    }
}

/// What an expression is, but for the brackets around it.
#[cycle(expression)]
#[derive(Drop)]
pub enum ExprKind {
    /// A number, by its value.
    Int(i32),
    /// The value of an object or of a part of it, or a view of an array.
    Read(Boxed<Place>),
    /// The value of `Overflow`.
    ReadOverflow {
        /// The word `Overflow`.
        word_at: At,
    },
    /// A mark before its operand.
    Unary {
        mark: UnaryMark,
        mark_at: At,
        part: Boxed<Expr>,
    },
    /// A mark between its operands.
    Binary {
        mark: BinaryMark,
        mark_at: At,
        left: Boxed<Expr>,
        right: Boxed<Expr>,
    },
    /// `( type ) part`: a conversion that is written out.
    Cast {
        width: Width,
        part: Boxed<Expr>,
    },
    /// `cond ? yes : no`
    Choose {
        cond: Boxed<Expr>,
        yes: Boxed<Expr>,
        no: Boxed<Expr>,
    },
    /// A call whose value is used.
    Call(Call),
}

/// The marks before an operand (C90, 6.3.3.3).
#[derive(Clone, Copy, Debug, PartialEq, Eq)]
pub enum UnaryMark {
    /// `-`
    Minus,
    /// `+`
    Plus,
    /// `!`
    Not,
    /// `~`
    Invert,
}

/// The marks between two operands (C90, 6.3.5 to 6.3.14).
#[derive(Clone, Copy, Debug, PartialEq, Eq)]
pub enum BinaryMark {
    /// `||`, which evaluates its right operand only where the left one is 0.
    Either,
    /// `&&`, which evaluates its right operand only where the left one is not 0.
    Both,
    /// `|`
    BitOr,
    /// `^`
    BitXor,
    /// `&`
    BitAnd,
    /// `==`
    Eq,
    /// `!=`
    Ne,
    /// `<`
    Lt,
    /// `<=`
    Le,
    /// `>`
    Gt,
    /// `>=`
    Ge,
    /// `+`
    Plus,
    /// `-`
    Minus,
    /// `*`
    Times,
}
