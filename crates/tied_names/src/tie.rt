// What a name is tied to.

ghost use Rattle.std.specs.Prelude.{◌≡◌, IfOk};
ghost use Rattle.tied_names.specs.Ties.{object_by, is_scalar, callee_by, call_kind, index_kind};

use c_typed::Callee;
use operator_meaning::SiteKind;
use sat_base::{Memory, Width};

/// An object: its number, and what it is.
#[derive(Clone, Copy)]
pub struct TiedObject {
    pub number: u32,
    pub width: Width,
    /// Its rows, or its length; 0 for a scalar and for a view.
    pub rows: u32,
    /// Its columns; 0 where there is no second dimension.
    pub columns: u32,
    pub view: bool,
}

/// What a name is tied to.
#[derive(Clone, Copy)]
pub enum Tie {
    Object(TiedObject),
    /// A function of the source, by its number, and the item that declares it.
    Function { number: u32, item: usize },
    /// A call that is in scope everywhere.
    Predefined(Callee),
}

/// What a parameter takes.
#[derive(Clone, Copy)]
pub enum Asked {
    Number(Width),
    View,
}

impl TiedObject {
    /// The object that a name is tied to; a scalar of 32 bits where it is tied to none.
    pub fn of(tie: Option<Tie>) -> TiedObject
        ensures { result ≡ object_by tie }
    {
        match tie {
            Some(Tie::Object(object)) => object,
            _ => TiedObject {
                number: 0,
                width: Width::W32,
                rows: 0,
                columns: 0,
                view: false,
            },
        }
    }

    /// Whether it is a scalar.
    pub fn is_scalar(&self) -> bool
        ensures { result ≡ is_scalar self.now }
    {
        !self.view && self.rows == 0
    }
}

/// What is called; the function 0 where a name is tied to nothing that can be.
pub fn callee_of(tie: Option<Tie>) -> Callee
    ensures { result ≡ callee_by tie }
{
    match tie {
        Some(Tie::Function { number, .. }) => Callee::Function(number),
        Some(Tie::Predefined(callee)) => callee,
        _ => Callee::Function(0),
    }
}

/// The site that a call is, if it is one.
pub fn call_kind(callee: Callee) -> Option<SiteKind>
    ensures { result ≡ call_kind callee }
{
    match callee {
        Callee::Operator(op) => Some(SiteKind::Call(op)),
        Callee::SampleIn => Some(SiteKind::Sample),
        _ => None,
    }
}

/// What an index is that is checked against this length. The last index under `&` may be the length itself.
pub fn index_kind(object: TiedObject, length: u32, edge: bool) -> Result<SiteKind, Memory>
    ensures { IfOk result (λ kind. kind ≡ index_kind object length edge) }
{
    if object.view {
        return Ok(if edge {
            SiteKind::ViewEdge
        } else {
            SiteKind::ViewBound
        });
    }
    if !edge {
        return Ok(SiteKind::Bound(length));
    }
    match length.checked_add(1) {
        Some(length) => Ok(SiteKind::Bound(length)),
        None => Err(Memory),
    }
}
