// Parts of a tree with their heights.

/// A part of a tree, and how many nodes and brackets its longest path has.
#[derive(Drop)]
pub struct Measured<T> {
    pub tree: T,
    pub height: u32,
}
