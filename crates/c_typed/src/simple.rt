// Assignments, steps and calls as statements.

use crate::call::TypedCall;
use crate::expression::TypedExpr;
use crate::place::TypedPlace;
use c_tree::AssignMark;
use sat_base::At;
use sqlite_items::Boxed;

/// What stands before a `;` and between the `;` of a `for`. It is no node of its own.
#[derive(Drop)]
pub enum TypedSimple {
    /// `place mark value` (C90, 6.3.16).
    Assign {
        /// The first token of the place.
        at: At,
        place: Boxed<TypedPlace>,
        mark: AssignMark,
        mark_at: At,
        /// The site at the mark, which `+=`, `-=` and `*=` have.
        site: Option<u32>,
        value: Boxed<TypedExpr>,
    },
    /// `++` or `--` before or after a place (C90, 6.3.2.4 and 6.3.3.1). Before `*` it stands only in front.
    Step {
        /// The first token of the place or the mark, whichever is first.
        at: At,
        place: Boxed<TypedPlace>,
        /// Whether it is `++`.
        up: bool,
        mark_at: At,
        /// The site at the mark.
        site: Option<u32>,
    },
    /// `Overflow = value`
    SetOverflow {
        /// The word `Overflow`.
        at: At,
        value: Boxed<TypedExpr>,
    },
    /// A call whose value, if it has one, is not used.
    Call(TypedCall),
}
