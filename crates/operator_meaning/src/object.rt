// The objects and the sites of a program, as every later form of it has them.

use crate::site::SiteKind;
use sat_base::{Name, Pos, Width};
use sqlite_items::Items;

/// A place of a program at which something is computed or checked. Sites are numbered from 0 in the
/// order of their tokens.
#[derive(Clone, Copy, Debug, PartialEq, Eq, Hash)]
pub struct Site {
    /// The number of its token, which no other site has.
    pub tok: u32,
    /// The place of that token.
    pub pos: Pos,
    pub kind: SiteKind,
}

/// How long an object lives, and how it comes to its first value (C90, 6.1.2.4).
#[derive(Clone, Copy, Debug, PartialEq, Eq, Hash)]
pub enum Storage {
    /// As long as the run: an object at file scope, or one that is declared `static`.
    Static,
    /// As long as its block is active, from its initialiser on.
    Automatic,
    /// As long as the call, from the argument on.
    Parameter,
}

/// An object: a scalar, an array of one or two dimensions, or a view, which is what C writes as a
/// pointer.
#[derive(Debug, Drop)]
pub struct Object {
    /// Its name, by which several objects may go.
    pub name: Name,
    /// The width of the object, or of its elements.
    pub width: Width,
    /// The number of rows; of an array of one dimension its length; 0 for a scalar and for a view.
    pub rows: u32,
    /// The number of columns; 0 where there is no second dimension.
    pub columns: u32,
    pub storage: Storage,
    /// Whether it is a view.
    pub view: bool,
    /// Whether it, or what a view reaches, is not written.
    pub is_const: bool,
    /// Whether it is a scalar to which `&` is applied somewhere.
    pub exposed: bool,
    /// All its values at the start, row by row; none for a parameter, for a view, and for an automatic
    /// object whose initialiser is no constant expression.
    pub initial: Option<Items<i32>>,
    /// The number of the function in whose definition it is declared; none at file scope.
    pub function: Option<u32>,
}
