// How sites are compiled, and why.

use operator_meaning::{Form, Guard, SiteKind};
use sat_base::Pos;
use sqlite_items::Items;

/// What reads `Overflow`.
#[derive(Clone, Copy, Debug, PartialEq, Eq)]
pub enum Reader {
    /// The word `Overflow` in an expression, by its place in the text.
    At(Pos),
    /// The end of `main`.
    End,
}

/// Why a clip, an update of `Overflow` or a check is kept.
#[derive(Clone, Copy, Debug, PartialEq, Eq)]
pub enum Reason {
    /// None is kept.
    Nothing,
    /// These operands clip or stop, of which the first `count` stand for operands.
    Corner {
        count: u8,
        first: i32,
        second: i32,
        third: i32,
    },
    /// The offset of a view is always checked_index.
    View,
    /// Whether a sample is left is always checked_index.
    Input,
}

/// How a site is compiled, and why.
#[derive(Clone, Copy, Debug, PartialEq, Eq)]
pub struct SiteForm {
    pub kind: SiteKind,
    /// The place of the site's token in the text.
    pub pos: Pos,
    pub form: Form,
    pub guard: Guard,
    pub reason: Reason,
    /// The first reader of `Overflow` that an update at the site can reach, where the form has one.
    pub reader: Option<Reader>,
}

/// The forms of all sites, by their numbers.
#[derive(Debug, Drop)]
pub struct Forms {
    pub sites: Items<SiteForm>,
}
