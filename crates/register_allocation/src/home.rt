// The homes of variables and views.

use sqlite_items::Items;

/// Where a tracked variable or a view of a function lives.
#[derive(Clone, Copy, Debug, PartialEq, Eq)]
pub enum Home {
    /// In the data memory, from this byte on: 4 bytes of a variable, 12 of a view.
    Slot(u32),
    /// In the register of this number.
    Register(u8),
}

/// The homes of the tracked variables and the views of a function, in the order of their declarations.
#[derive(Debug, Drop)]
pub struct Homes {
    pub homes: Items<Home>,
}

/// Those of all functions of a tree, in the order of the functions.
#[derive(Debug, Drop)]
pub struct Assign {
    pub functions: Items<Homes>,
}
