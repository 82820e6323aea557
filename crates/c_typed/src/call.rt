// Calls and their arguments.

use crate::expression::TypedExpr;
use crate::place::TypedPlace;
use operator_meaning::Op;
use sat_base::At;
use sqlite_items::Items;

/// A call of a function or of an operator (C90, 6.3.2.2).
#[cycle(expression)]
#[derive(Drop)]
pub struct TypedCall {
    /// The called name, which is the first token of the call.
    pub at: At,
    pub callee: Callee,
    /// The site at the name, which operators and `sample_in` have.
    pub site: Option<u32>,
    /// Its arguments, as many as there are parameters.
    pub args: Items<TypedArg>,
}

/// What is called.
#[derive(Clone, Copy, Debug, PartialEq, Eq)]
pub enum Callee {
    /// A function of the source, by its number.
    Function(u32),
    /// A basic operator.
    Operator(Op),
    Move16,
    Move32,
    Logic16,
    Logic32,
    Test,
    SampleIn,
    SampleLeft,
    SampleOut,
}

/// An argument of a call, or the one value that an object starts with.
#[cycle(expression)]
#[derive(Drop)]
pub enum TypedArg {
    /// A number.
    Value(TypedExpr),
    /// A view, with or without an `&` before it.
    Address {
        /// The first token of the argument.
        at: At,
        place: TypedPlace,
    },
}
