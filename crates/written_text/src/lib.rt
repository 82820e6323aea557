// How programs that only try other crates put long texts together.
#![tactic(auto)]

use std::alloc::{AllocError, Global};

/// A text in the making. That there was no room for a piece is kept until the end, so that a step of a walk that writes
/// has one end only, which makes the proof of the walk shorter.
#[derive(Drop)]
pub struct Written {
    alloc: Global,
    text: String,
    failed: bool,
}

/// No text yet.
pub fn nothing_written(alloc: Global) -> Written {
    Written {
        alloc,
        text: String::new(alloc),
        failed: false,
    }
}

/// Adds a word.
pub fn push_word(out: &mut Written, word: &str) {
    if out.text.push_str(word).is_err() {
        out.failed = true;
    }
}

/// Adds a number in decimal.
pub fn push_number(out: &mut Written, number: i64) {
    if add_number(out.alloc, &mut out.text, number).is_err() {
        out.failed = true;
    }
}

fn add_number(alloc: Global, text: &mut String, number: i64) -> Result<(), AllocError> {
    text.push_str(format!(in alloc; "{number}")?.as_str())
}

/// A word and a number that follows it, as most numbers do.
pub fn push_numbered(out: &mut Written, word: &str, number: u32) {
    push_word(out, word);
    push_number(out, i64::from(number));
}

/// The whole text, or that there was no room for a piece of it.
pub fn whole_text(out: Written) -> Result<String, AllocError> {
    if out.failed {
        return Err(AllocError);
    }
    Ok(out.text)
}
