// What a source of the first form is.

use sat_base::Pos;
use sqlite_items::{Boxed, Items};

/// A source of the first form: what its `main` writes, in order.
#[derive(Drop)]
pub struct First {
    pub outs: Items<FirstExpr>,
}

/// An expression of the first form.
#[derive(Drop)]
pub enum FirstExpr {
    /// A number from 0 to 32767.
    Int(i32),
    /// A call of `add`.
    Add {
        /// The number of the token `add`, from 0 in the order of the text.
        tok: u32,
        /// The place of the token `add`.
        pos: Pos,
        left: Boxed<FirstExpr>,
        right: Boxed<FirstExpr>,
    },
    /// A call of `sub`.
    Sub {
        /// The number of the token `sub`, from 0 in the order of the text.
        tok: u32,
        /// The place of the token `sub`.
        pos: Pos,
        left: Boxed<FirstExpr>,
        right: Boxed<FirstExpr>,
    },
}
