// Functions and their parameters (C90, 6.5.4.3 and 6.7.1).

use crate::declaration::Dim;
use crate::statement::Block;
use sat_base::{At, Named, Width};
use sqlite_items::Items;

/// A function, declared or defined.
#[derive(Drop)]
pub struct Function {
    /// Its first token, which is `static`, the type or `void`.
    pub at: At,
    pub name: Named,
    /// The width of the number that it gives. None is `void`.
    pub gives: Option<Width>,
    /// Its parameters, in order. Both `()` and `( void )` have none.
    pub params: Items<Param>,
    /// The body, where this is its definition.
    pub body: Option<Block>,
    /// Whether it says `static`.
    pub is_static: bool,
}

/// A parameter of a function: a number, or a view, `* name` or `name [ .. ]`.
#[derive(Drop)]
pub struct Param {
    /// Its first token, which is `const` or the type.
    pub at: At,
    /// The first token of the type.
    pub type_at: At,
    /// The name, which a declaration need not give.
    pub name: Option<Named>,
    /// The width of the number, or of the elements of the view.
    pub width: Width,
    /// Whether it says `const`.
    pub is_const: bool,
    /// Whether a `*` stands before the name.
    pub pointer: bool,
    /// The pair of square brackets after the name.
    pub dim: Option<Dim>,
}
