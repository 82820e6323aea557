// The places that expressions read and that statements write.

use crate::expression::TypedExpr;
use sat_base::At;
use sqlite_items::Boxed;

/// An object or a part of it, as it is read, written or stepped, or as its address is taken. In each `at`
/// is the object's name.
#[cycle(expression)]
#[derive(Drop)]
pub enum TypedPlace {
    /// `name`
    Plain {
        at: At,
        object: u32,
    },
    /// `name [ index ]`
    Index {
        at: At,
        object: u32,
        /// The `[`.
        mark_at: At,
        /// The site at the `[`.
        site: Option<u32>,
        index: Boxed<TypedExpr>,
    },
    /// `name [ first ] [ second ]`
    Index2 {
        at: At,
        object: u32,
        /// The first `[`.
        first_at: At,
        /// The site at the first `[`.
        first_site: Option<u32>,
        first: Boxed<TypedExpr>,
        /// The second `[`.
        second_at: At,
        /// The site at the second `[`.
        second_site: Option<u32>,
        second: Boxed<TypedExpr>,
    },
    /// `* name`
    Deref {
        /// The `*`.
        star_at: At,
        /// The site at the `*`.
        site: Option<u32>,
        at: At,
        object: u32,
    },
}
