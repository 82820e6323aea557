// What the compiler makes and the machine loads.

use sqlite_items::Items;

/// An image: the words of its code, the first content of its data memory, and an entry for each site of the
/// source, in the order of their numbers.
#[derive(Debug, Drop)]
pub struct Image {
    pub code: Items<u32>,
    pub memory: Items<u8>,
    pub sites: Items<SiteEntry>,
}

/// Where the words of a site lie in the code, and what they are. A register is a number from 0 to 31, and 0
/// where it is unused.
#[derive(Clone, Copy, Debug, PartialEq, Eq)]
pub struct SiteEntry {
    /// The place of the site's first word in the code, counted in words from 0.
    pub first: u32,
    /// The place of the site's token in the source: its line, from 1.
    pub line: u32,
    /// Its column in bytes, from 1.
    pub col: u32,
    /// How many values an index may have, and 0 at every other kind.
    pub bound: u32,
    /// How many words the site has.
    pub words: u16,
    /// The kind: 0 to 28 for the operators in the order of their table (0 is `add`), and above these the
    /// kinds that are no operator.
    pub kind: u8,
    /// The form: 0 plain, 1 with its clips, 2 with its clips and the update of Overflow.
    pub form: u8,
    /// The guard against a stop: 0 gone, 1 kept.
    pub guard: u8,
    /// How many operand registers are used.
    pub operands: u8,
    /// The register of the result.
    pub result: u8,
    /// The register of the first operand.
    pub reg_a: u8,
    /// The register of the second operand.
    pub reg_b: u8,
    /// The register of the third operand.
    pub reg_c: u8,
}
