// What a line asks for: a word, and a text in which `\n`, `\r`, `\t`, `\v`, `\f`, `\s` and `\z` stand for white bytes
// and the byte 0, and `\NUMBER:PART` with a back quote at its end for a part that is repeated, in which `$` stands for
// a line feed.

use crate::first::first_of;
use crate::places::{items_of, places_of};
use crate::shape::shape_of;
use crate::text::{tokens_of, unescaped};
use crate::tree::tree_of;
use std::alloc::{AllocError, Global};

/// The answer to a line: the tokens of a text or how many they are, how many items are read, the shape of an
/// expression, where items or the parts of a statement begin, or the first form.
pub fn answer_to(alloc: Global, line: &str) -> Result<String, AllocError> {
    let (kind, text) = line.split_once(' ').unwrap_or((line, ""));
    let bytes = unescaped(alloc, text)?;
    match kind {
        "tokens" => tokens_of(alloc, bytes.as_slice(), true),
        "count" => tokens_of(alloc, bytes.as_slice(), false),
        "read" => tree_of(alloc, bytes.as_slice()),
        "shape" => shape_of(alloc, bytes.as_slice()),
        "places" => places_of(alloc, bytes.as_slice()),
        "items" => items_of(alloc, bytes.as_slice()),
        "first" => first_of(alloc, bytes.as_slice()),
        _ => format!(in alloc; "no case: {line}"),
    }
}
