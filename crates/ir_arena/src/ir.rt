// A whole tree.

use crate::node::Node;
use operator_meaning::{Object, Site};
use sat_base::{Name, Width};
use sqlite_items::Items;

/// The tree of a source.
#[derive(Drop)]
pub struct Ir<'a> {
    /// The defined functions, in the order of their definitions. A function's number is its place here.
    pub functions: Items<IrFunction<'a>>,
    /// The number of `main`.
    pub main: u32,
    /// The objects, in the order of their declarations.
    pub objects: Items<Object>,
    /// The sites, in the order of their tokens.
    pub sites: Items<Site>,
    /// The cuts: function by function, first its parameters, then its loops, then its return.
    pub cuts: Items<CutPlace>,
    /// The distinct relational constants, in the order in which they first stand.
    pub constants: Items<i32>,
    /// The number of the table of weights, from 1.
    pub weights: u32,
}

/// A defined function.
#[derive(Drop)]
pub struct IrFunction<'a> {
    pub name: Name,
    /// The width of the number that it gives. None is `void`.
    pub gives: Option<Width>,
    /// The objects that are its parameters, in order.
    pub params: Items<u32>,
    pub body: &'a Node<'a>,
}

/// A place at which ranges are stated.
#[derive(Debug, Drop)]
pub struct CutPlace {
    pub kind: CutKind,
    /// The function that it lies in.
    pub function: u32,
    /// The tracked variables whose ranges it states, in the order of their declarations; none at a return.
    pub variables: Items<u32>,
    /// Their widths; at a return what the function gives.
    pub widths: Items<Width>,
}

/// Where a cut lies.
#[derive(Clone, Copy, Debug, PartialEq, Eq)]
pub enum CutKind {
    /// At the parameters of a function.
    Entry,
    /// At the head of a loop.
    Head,
    /// At the return of a function.
    Exit,
}
