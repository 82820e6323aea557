// What a line asks for.

use crate::fitting::is_range;
use crate::operator::{corners_of, image_of};
use crate::pair::{of_one, of_two};
use crate::spelled::{ranges_in, shown};
use operator_meaning::of_name;
use range_core::{Range, thresholds};
use sat_base::Memory;
use std::alloc::{AllocError, Global};

/// The answer to a line `WORD: RANGES`, where the word is `corners` or `image` with the name of an operator, `round` with
/// constants, or one of those that take one or two ranges of 32 bits.
pub fn answer_to(alloc: Global, line: &str) -> Result<String, AllocError> {
    let (word, text) = line.split_once(':').unwrap_or((line, ""));
    let answer = match word.split_once(' ') {
        Some(("corners", name)) => match of_name(name) {
            Some(op) => Some(corners_of(alloc, op, text)?),
            None => None,
        },
        Some(("image", name)) => match of_name(name) {
            Some(op) => Some(image_of(alloc, op, text)?),
            None => None,
        },
        Some(("round", constants)) => Some(rounded(alloc, constants, text)?),
        _ => of_ranges(alloc, word, text)?,
    };
    match answer {
        Some(answer) => Ok(answer),
        None => format!(in alloc; "no case: {line}"),
    }
}

fn of_ranges(alloc: Global, word: &str, text: &str) -> Result<Option<String>, AllocError> {
    let ranges = ranges_in(alloc, text)?;
    match ranges.as_slice() {
        [range] if is_range(*range) => of_one(alloc, word, *range),
        [left, right] if is_range(*left) && is_range(*right) => of_two(alloc, word, *left, *right),
        _ => Ok(None),
    }
}

// The range rounded out to the thresholds of a source with these constants.
fn rounded(alloc: Global, constants: &str, text: &str) -> Result<String, AllocError> {
    let mut numbers = Vec::new(alloc);
    for constant in constants.split_whitespace() {
        if let Ok(constant) = constant.parse::<i32>() {
            numbers.push(constant)?;
        }
    }
    let ranges = ranges_in(alloc, text)?;
    let Ok(known) = thresholds(alloc, numbers.as_slice()) else {
        return Err(AllocError);
    };
    match ranges.as_slice() {
        [range] if is_range(*range) => shown(alloc, known.round_out(*range)),
        _ => format!(in alloc; "no range: {text}"),
    }
}
