// Cases.

use case_text::unescaped;
use std::alloc::{AllocError, Global};

/// A source, with the samples and the numbers of turns that it is run at.
#[derive(Drop)]
pub struct Case {
    pub turns: Vec<u32>,
    pub input: Vec<i16>,
    pub source: Vec<u8>,
}

/// The case on a line; none where one of its parts is missing.
pub fn case_on(alloc: Global, line: &str) -> Result<Option<Case>, AllocError> {
    let Some((turns, rest)) = line.split_once(" | ") else {
        return Ok(None);
    };
    let Some((input, source)) = rest.split_once(" | ") else {
        return Ok(None);
    };
    Ok(Some(Case {
        turns: numbers_of_turns(alloc, turns)?,
        input: samples(alloc, input)?,
        source: unescaped(alloc, source)?,
    }))
}

/// What is no number is passed over.
fn numbers_of_turns(alloc: Global, text: &str) -> Result<Vec<u32>, AllocError> {
    let mut turns = Vec::new(alloc);
    for word in text.split(' ') {
        if let Ok(number) = word.parse::<u32>() {
            turns.push(number)?;
        }
    }
    Ok(turns)
}

/// What is no sample is passed over.
fn samples(alloc: Global, text: &str) -> Result<Vec<i16>, AllocError> {
    let mut samples = Vec::new(alloc);
    for word in text.split(' ') {
        if let Ok(sample) = word.parse::<i16>() {
            samples.push(sample)?;
        }
    }
    Ok(samples)
}
