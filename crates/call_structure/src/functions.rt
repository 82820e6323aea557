// The functions of a source in an order.

use sqlite_items::Items;

/// The functions that a source defines, by their numbers, each before those that it calls.
#[derive(Debug, Drop)]
pub struct Order {
    pub functions: Items<u32>,
}
