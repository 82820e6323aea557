// What a line asks for.

use crate::run::runs_of;
use crate::word::word_of;
use std::alloc::{AllocError, Global};

/// The answer to a line: `run NAME; WORDS; MEMORY; SAMPLES; BUDGETS` or `word WORD`. Words and bytes are hexadecimal,
/// samples and budgets are decimal.
pub fn answer_to(alloc: Global, line: &str) -> Result<String, AllocError> {
    match line.split_once(' ') {
        Some(("run", case)) => match runs_of(alloc, case)? {
            Some(answer) => Ok(answer),
            None => format!(in alloc; "no run: {line}"),
        },
        Some(("word", word)) => word_of(alloc, word),
        _ => format!(in alloc; "no case: {line}"),
    }
}

/// The hexadecimal number, if it is one of 32 bits.
pub fn hexadecimal(text: &str) -> Option<u32> {
    let mut number: u32 = 0;
    for digit in text.chars() {
        number = number.checked_mul(16)?.checked_add(digit.to_digit(16)?)?;
    }
    Some(number)
}
