// What is noted in a tree as its names are tied.

use operator_meaning::Site;

/// What is noted in a tree.
#[derive(Clone, Copy)]
pub enum Note {
    /// A site.
    Site(Site),
    /// A scalar, by its number, to which `&` is applied.
    Exposed(u32),
}
