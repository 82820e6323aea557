// The limits of what is accepted, each a count of the things that its name says.

/// The most bytes of a source.
pub const SOURCE_BYTES: usize = 1_048_576;

/// The most tokens of a source.
pub const TOKENS: usize = 131_072;

/// The greatest depth of a source's tree: the nodes, and the brackets, on one path from an item to a leaf.
pub const DEPTH: usize = 64;

/// The most distinct functions of a source.
pub const FUNCTIONS: usize = 1_024;

/// The most scalars of one function, its scalar parameters included.
pub const SCALARS: usize = 256;

/// The most parameters of one function.
pub const PARAMETERS: usize = 16;

/// The most bytes of all objects of a source together.
pub const OBJECT_BYTES: usize = 1_048_576;

/// The most distinct relational constants of a source.
pub const CONSTANTS: usize = 4_096;

/// The most statements of a source.
pub const STATEMENTS: usize = 65_536;

/// The most views of one function, its parameters included.
pub const VIEWS: usize = 64;

/// The most bytes that are read of a sample file.
pub const SAMPLE_BYTES: usize = 16_777_216;
