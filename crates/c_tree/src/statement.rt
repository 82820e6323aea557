// Blocks and statements.

ghost use Rattle.std.specs.Prelude.{◌≡◌, IfOk};
ghost use Rattle.c_tree.specs.Starts.{start_of_statement};

use crate::declaration::Objects;
use crate::expression::Expr;
use crate::simple::Simple;
use sat_base::{At, Memory};
use sqlite_items::{Boxed, Items};
use std::alloc::Global;

/// `{ .. }`: objects, and then statements (C90, 6.6.2).
#[cycle(statement)]
#[derive(Drop)]
pub struct Block {
    /// The `{`.
    pub at: At,
    /// The declarations of its objects, in order.
    pub objects: Items<Objects>,
    /// Its statements, in order.
    pub stmts: Items<Stmt>,
}

/// A statement (C90, 6.6).
#[cycle(statement)]
#[derive(Drop)]
pub enum Stmt {
    /// `;`
    Empty {
        /// The `;`.
        at: At,
    },
    /// A block inside a block.
    Block(Block),
    /// An assignment, a step or a call, with its `;`.
    Simple(Simple),
    /// `if ( cond ) yes`, or `if ( cond ) yes else no`.
    If {
        /// The word `if`.
        at: At,
        cond: Boxed<Expr>,
        yes: Boxed<Stmt>,
        no: Option<Boxed<Stmt>>,
    },
    /// `while ( cond ) body`
    While {
        /// The word `while`.
        at: At,
        cond: Boxed<Expr>,
        body: Boxed<Stmt>,
    },
    /// `do body while ( cond ) ;`
    Do {
        /// The word `do`.
        at: At,
        body: Boxed<Stmt>,
        cond: Boxed<Expr>,
    },
    /// `for ( first ; cond ; last ) body`, where `first` and `last` are none or more, separated by commas.
    For {
        /// The word `for`.
        at: At,
        /// What is done once, before the loop.
        first: Items<Simple>,
        /// The condition, which is 1 where none is written.
        cond: Option<Boxed<Expr>>,
        /// What is done at the end of each turn.
        last: Items<Simple>,
        body: Boxed<Stmt>,
    },
    /// `break ;`
    Break {
        /// The word `break`.
        at: At,
    },
    /// `continue ;`
    Continue {
        /// The word `continue`.
        at: At,
    },
    /// `return ;`, or `return value ;`.
    Return {
        /// The word `return`.
        at: At,
        value: Option<Boxed<Expr>>,
    },
}

impl Stmt {
    /// `if ( cond ) yes`, or `if ( cond ) yes else no`.
    pub fn if_(
        alloc: Global,
        at: At,
        cond: Expr,
        yes: Stmt,
        no: Option<Stmt>,
    ) -> Result<Stmt, Memory>
        ensures { IfOk result (λ stmt. stmt ≡ Stmt.If at cond yes no) }
    {
        let cond = Boxed::new(alloc, cond)?;
        let yes = Boxed::new(alloc, yes)?;
        let no = match no {
            Some(no) => Some(Boxed::new(alloc, no)?),
            None => None,
        };
        Ok(Stmt::If { at, cond, yes, no })
    }

    /// `while ( cond ) body`
    pub fn while_(alloc: Global, at: At, cond: Expr, body: Stmt) -> Result<Stmt, Memory>
        ensures { IfOk result (λ stmt. stmt ≡ Stmt.While at cond body) }
    {
        let cond = Boxed::new(alloc, cond)?;
        let body = Boxed::new(alloc, body)?;
        Ok(Stmt::While { at, cond, body })
    }

    /// `do body while ( cond ) ;`
    pub fn do_(alloc: Global, at: At, body: Stmt, cond: Expr) -> Result<Stmt, Memory>
        ensures { IfOk result (λ stmt. stmt ≡ Stmt.Do at body cond) }
    {
        let body = Boxed::new(alloc, body)?;
        let cond = Boxed::new(alloc, cond)?;
        Ok(Stmt::Do { at, body, cond })
    }

    /// `for ( first ; cond ; last ) body`
    pub fn for_(
        alloc: Global,
        at: At,
        first: Items<Simple>,
        cond: Option<Expr>,
        last: Items<Simple>,
        body: Stmt,
    ) -> Result<Stmt, Memory>
        ensures { IfOk result (λ stmt. stmt ≡ Stmt.For at first cond last body) }
    {
        let cond = boxed_if_any(alloc, cond)?;
        let body = Boxed::new(alloc, body)?;
        Ok(Stmt::For {
            at,
            first,
            cond,
            last,
            body,
        })
    }

    /// `return ;`, or `return value ;`.
    pub fn return_(alloc: Global, at: At, value: Option<Expr>) -> Result<Stmt, Memory>
        ensures { IfOk result (λ stmt. stmt ≡ Stmt.Return at value) }
    {
        let value = boxed_if_any(alloc, value)?;
        Ok(Stmt::Return { at, value })
    }

    /// Its first token.
    pub fn at(&self) -> At
        ensures { result ≡ start_of_statement self.now }
    {
        match self {
            Stmt::Block(block) => block.at,
            Stmt::Simple(simple) => simple.at(),
            Stmt::Empty { at }
            | Stmt::If { at, .. }
            | Stmt::While { at, .. }
            | Stmt::Do { at, .. }
            | Stmt::For { at, .. }
            | Stmt::Break { at }
            | Stmt::Continue { at }
            | Stmt::Return { at, .. } => *at,
        }
    }
}

// The expression in a box, where there is one.
fn boxed_if_any(alloc: Global, e: Option<Expr>) -> Result<Option<Boxed<Expr>>, Memory>
    ensures { IfOk result (λ boxed. boxed ≡ e) }
{
    match e {
        Some(e) => Ok(Some(Boxed::new(alloc, e)?)),
        None => Ok(None),
    }
}
