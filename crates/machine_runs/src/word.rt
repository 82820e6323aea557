// The words of instructions.

use crate::case::hexadecimal;
use rv_encode::{decode, encode};
use std::alloc::{AllocError, Global};

/// The instruction of a word, and its word again.
pub fn word_of(alloc: Global, text: &str) -> Result<String, AllocError> {
    let Some(word) = hexadecimal(text) else {
        return format!(in alloc; "no word: {text}");
    };
    match decode(word) {
        Some(instr) => {
            let again = encode(instr);
            format!(in alloc; "{again:08x} {instr:?}")
        }
        None => format!(in alloc; "{word:08x} is off the table"),
    }
}
