// Calls and their arguments.

ghost use Rattle.std.specs.Prelude.{◌≡◌};
ghost use Rattle.c_tree.specs.Starts.{start_of_argument};

use crate::expression::Expr;
use crate::place::Place;
use sat_base::{At, Named};
use sqlite_items::Items;

/// A call of a function or of an operator (C90, 6.3.2.2).
#[cycle(expression)]
#[derive(Drop)]
pub struct Call {
    /// The called name, which is the first token of the call.
    pub name: Named,
    pub args: Items<Arg>,
}

/// An argument of a call, or the one value that an object starts with.
#[cycle(expression)]
#[derive(Drop)]
pub enum Arg {
    /// An expression.
    Value(Expr),
    /// `& place`
    Address {
        /// The `&`.
        at: At,
        place: Place,
    },
}

impl Arg {
    /// Its first token.
    pub fn at(&self) -> At
        ensures { result ≡ start_of_argument self.now }
    {
        match self {
            Arg::Value(value) => value.at,
            Arg::Address { at, .. } => *at,
        }
    }
}
