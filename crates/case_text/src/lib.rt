// How the programs that only try other crates write the texts of their cases.
#![tactic(auto)]

use std::alloc::{AllocError, Global};

/// The bytes that a text of a case stands for: `\n`, `\r`, `\t`, `\v`, `\f`, `\s` and `\z` are white bytes and the byte 0,
/// and `\N:TEXT` and a backquote are N times the text, in which `$` is a line feed.
pub fn unescaped(alloc: Global, text: &str) -> Result<Vec<u8>, AllocError> {
    let mut bytes = Vec::new(alloc);
    let mut parts = text.split('\\');
    if let Some(plain) = parts.next() {
        bytes.extend_from_slice(plain.as_bytes())?;
    }
    for part in parts {
        push_escape(&mut bytes, part)?;
    }
    Ok(bytes)
}

/// Adds what stands after a backslash, up to the next one.
fn push_escape(bytes: &mut Vec<u8>, part: &str) -> Result<(), AllocError> {
    if let Some((times, rest)) = repeated_part(part) {
        let (repeated, plain) = rest.split_once('`').unwrap_or((rest, ""));
        for _ in 0..times {
            for &byte in repeated.as_bytes() {
                bytes.push(if byte == b'$' { b'\n' } else { byte })?;
            }
        }
        return bytes.extend_from_slice(plain.as_bytes());
    }
    let mut rest = part.chars();
    if let Some(byte) = rest.next().and_then(escaped) {
        bytes.push(byte)?;
    }
    bytes.extend_from_slice(rest.as_str().as_bytes())
}

/// A number of times, and what follows its `:`.
fn repeated_part(part: &str) -> Option<(u32, &str)> {
    let (times, rest) = part.split_once(':')?;
    Some((times.parse::<u32>().ok()?, rest))
}

fn escaped(letter: char) -> Option<u8> {
    match letter {
        'n' => Some(b'\n'),
        'r' => Some(b'\r'),
        't' => Some(b'\t'),
        'v' => Some(11),
        'f' => Some(12),
        'z' => Some(0),
        's' => Some(b' '),
        _ => None,
    }
}
