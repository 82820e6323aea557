// A file that a store in memory begins with.

use sqlite_items::Items;

/// A file: its name, and its bytes.
#[derive(Debug, Drop)]
pub struct Entry {
    pub name: Items<u8>,
    pub bytes: Items<u8>,
}
