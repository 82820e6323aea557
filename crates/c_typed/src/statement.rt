// Blocks and statements.

use crate::call::TypedArg;
use crate::expression::TypedExpr;
use crate::simple::TypedSimple;
use sat_base::At;
use sqlite_items::{Boxed, Items};

/// `{ .. }`: objects, and then statements (C90, 6.6.2).
#[cycle(statement)]
#[derive(Drop)]
pub struct TypedBlock {
    /// The `{`.
    pub at: At,
    /// How each of its objects starts, in the order of their declarations.
    pub objects: Items<Start>,
    /// Its statements, in order.
    pub stmts: Items<TypedStmt>,
}

/// How an object starts each time its block is entered.
#[derive(Drop)]
pub struct Start {
    pub object: u32,
    /// The one value that an object which is not static starts with, where it has one.
    pub value: Option<TypedArg>,
}

/// A statement (C90, 6.6).
#[cycle(statement)]
#[derive(Drop)]
pub enum TypedStmt {
    /// `;`
    Empty {
        /// The `;`.
        at: At,
    },
    /// A block inside a block.
    Block(TypedBlock),
    /// An assignment, a step or a call, with its `;`.
    Simple(TypedSimple),
    /// `if ( cond ) yes`, or `if ( cond ) yes else no`.
    If {
        /// The word `if`.
        at: At,
        cond: Boxed<TypedExpr>,
        yes: Boxed<TypedStmt>,
        no: Option<Boxed<TypedStmt>>,
    },
    /// `while ( cond ) body`
    While {
        /// The word `while`.
        at: At,
        cond: Boxed<TypedExpr>,
        body: Boxed<TypedStmt>,
    },
    /// `do body while ( cond ) ;`
    Do {
        /// The word `do`.
        at: At,
        body: Boxed<TypedStmt>,
        cond: Boxed<TypedExpr>,
    },
    /// `for ( first ; cond ; last ) body`, where `first` and `last` are none or more, separated by commas.
    For {
        /// The word `for`.
        at: At,
        /// What is done once, before the loop.
        first: Items<TypedSimple>,
        /// The condition, which is 1 where none is written.
        cond: Option<Boxed<TypedExpr>>,
        /// What is done at the end of each turn.
        last: Items<TypedSimple>,
        body: Boxed<TypedStmt>,
    },
    /// `break ;`
    Break {
        /// The word `break`.
        at: At,
    },
    /// `continue ;`
    Continue {
        /// The word `continue`.
        at: At,
    },
    /// `return ;`, or `return value ;`.
    Return {
        /// The word `return`.
        at: At,
        value: Option<Boxed<TypedExpr>>,
    },
}
