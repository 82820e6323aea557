// How much is read of an image file.

/// The most bytes of an image file: 20 at the beginning, 4 for each of 16,777,216 words of code, 16,777,216 of data
/// memory, and 28 for each of 131,072 sites.
pub const IMAGE_BYTES: usize = 87_556_116;
