// How answers are written.

use std::alloc::{AllocError, Global};

/// A status, and a text in which a line feed is `\n`.
pub fn shown_text(alloc: Global, status: u8, text: &[u8]) -> Result<String, AllocError> {
    let mut answer = format!(in alloc; "{status} ")?;
    for &byte in text {
        if byte == b'\n' {
            answer.push_str("\\n")?;
        } else {
            answer.push(char::from(byte))?;
        }
    }
    Ok(answer)
}

/// A file's name, and its bytes in hexadecimal, or the first of them where they are many.
pub fn shown_file(alloc: Global, name: &str, bytes: Option<&[u8]>) -> Result<String, AllocError> {
    let Some(bytes) = bytes else {
        return format!(in alloc; "{name} none");
    };
    let mut answer = format!(in alloc; "{name} ")?;
    let (shown, end) = if bytes.len() > 20 {
        (&bytes[..5], "..")
    } else {
        (bytes, "")
    };
    for byte in shown {
        answer.push_str(format!(in alloc; "{byte:02x}")?.as_str())?;
    }
    answer.push_str(end)?;
    Ok(answer)
}

/// A file's name, and how many bytes it has.
pub fn file_size(alloc: Global, name: &str, bytes: Option<&[u8]>) -> Result<String, AllocError> {
    match bytes {
        Some(bytes) => format!(in alloc; "{name} has {}", bytes.len()),
        None => format!(in alloc; "{name} none"),
    }
}

/// The bytes that hexadecimal digits stand for, two and two; what is no digit is left out.
pub fn unhexed(alloc: Global, text: &str) -> Result<Vec<u8>, AllocError> {
    let mut bytes = Vec::new(alloc);
    let mut high: Option<u8> = None;
    for letter in text.chars() {
        let Some(digit) = letter.to_digit(16) else {
            continue;
        };
        let digit = u8::try_from(digit).unwrap_or(0);
        match high {
            Some(upper) => {
                bytes.push(upper.wrapping_mul(16).wrapping_add(digit))?;
                high = None;
            }
            None => high = Some(digit),
        }
    }
    Ok(bytes)
}
