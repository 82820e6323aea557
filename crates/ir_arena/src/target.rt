// What reads, writes and addresses reach.

use crate::node::Node;

/// An object or a part of it. Each index is an `Operate` of its kind whose one operand is the index; that of
/// `*x` has no operand.
#[cycle(node)]
#[derive(Clone, Copy)]
pub enum Target<'a> {
    /// A name by itself.
    Variable { object: u32 },
    /// An element of a named array, by its indices.
    Element { object: u32, index: &'a [Node<'a>] },
    /// What a view reaches, by its index.
    ThroughView { view: u32, index: &'a [Node<'a>] },
}
