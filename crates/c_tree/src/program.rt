// A whole source (C90, 6.7).

ghost use Rattle.std.specs.Prelude.{◌≡◌};
ghost use Rattle.c_tree.specs.Starts.{start_of_item};

use crate::declaration::Objects;
use crate::function::Function;
use sat_base::{At, Pos};
use sqlite_items::Items;

/// A whole source.
#[derive(Drop)]
pub struct Program {
    /// What it declares and defines, in order. There is at least one item in what the grammar gives.
    pub items: Items<Item>,
    /// The number of its tokens.
    pub end_tok: u32,
    /// The place after its last byte.
    pub end: Pos,
}

/// A declaration or a definition at file scope.
#[derive(Drop)]
pub enum Item {
    /// Objects at file scope.
    Objects(Objects),
    /// A function.
    Function(Function),
    /// `extern Flag Overflow ;` or `extern int Overflow ;`
    ExternFlag {
        /// The word `extern`.
        at: At,
    },
}

impl Item {
    /// Its first token.
    pub fn at(&self) -> At
        ensures { result ≡ start_of_item self.now }
    {
        match self {
            Item::Objects(objects) => objects.at,
            Item::Function(function) => function.at,
            Item::ExternFlag { at } => *at,
        }
    }
}
