// What stands at the front of declarations (C90, 6.5).

use sat_base::{At, Width};

/// The qualifiers at the front of a declaration (C90, 6.5.1 and 6.5.3).
#[derive(Clone, Copy)]
pub struct Qualifiers {
    /// The first token of the declaration.
    pub at: At,
    pub is_static: bool,
    pub is_const: bool,
}

/// The qualifiers and the type at the front of a declaration.
#[derive(Clone, Copy)]
pub struct Specifiers {
    pub quals: Qualifiers,
    pub width: Width,
}
