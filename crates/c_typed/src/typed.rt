// A whole source.

use crate::statement::TypedBlock;
use operator_meaning::{Object, Site};
use sat_base::{At, Name, Width};
use sqlite_items::Items;

/// A whole source whose names are tied.
#[derive(Drop)]
pub struct Typed {
    /// The objects, in the order of their declarations.
    pub objects: Items<Object>,
    /// The functions, in the order of their first declarations.
    pub functions: Items<TypedFunction>,
    /// The sites, in the order of their tokens.
    pub sites: Items<Site>,
    /// The distinct relational constants, in the order in which they first stand.
    pub constants: Items<i32>,
    /// The number of the table of weights, from 1.
    pub weights: u32,
}

/// A function.
#[derive(Drop)]
pub struct TypedFunction {
    pub name: Name,
    /// The name in its definition; none where it is declared alone.
    pub defined: Option<At>,
    /// The width of the number that it gives. None is `void`.
    pub gives: Option<Width>,
    /// The objects that are its parameters, in order; none where it is declared alone.
    pub params: Items<u32>,
    /// The body, where it is defined.
    pub body: Option<TypedBlock>,
}
