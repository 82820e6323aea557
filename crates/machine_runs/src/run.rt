// Runs of small images.

use crate::case::hexadecimal;
use image_format::Image;
use rv_emulator::{Machine, Pause};
use sqlite_items::Items;
use std::alloc::{AllocError, Global};

/// The pauses of the machine over these words, bytes and samples, one after each budget; none where the case is not
/// spelled.
pub fn runs_of(alloc: Global, case: &str) -> Result<Option<String>, AllocError> {
    let mut parts = case.split(';');
    let name = parts.next().unwrap_or("");
    let words = parts.next().unwrap_or("");
    let bytes = parts.next().unwrap_or("");
    let samples = parts.next().unwrap_or("");
    let budgets = parts.next().unwrap_or("");
    let input = samples_in(alloc, samples)?;
    let (Some(code), Some(memory)) = (words_in(alloc, words)?, bytes_in(alloc, bytes)?) else {
        return Ok(None);
    };
    let image = Image {
        code,
        memory,
        sites: Items::new(alloc),
    };
    let Ok(mut machine) = Machine::load(alloc, &image, input.as_slice()) else {
        return Err(AllocError);
    };
    let answer = pauses_of(alloc, &mut machine, budgets)?;
    Ok(Some(format!(in alloc; "{name}:{answer}")?))
}

/// The pauses, one after each budget, each but the first after what is left of the budget. A point stands for what is
/// left of the last one.
fn pauses_of(alloc: Global, machine: &mut Machine, budgets: &str) -> Result<String, AllocError> {
    let mut answer = String::new(alloc);
    let mut left: u64 = 0;
    for (number, budget) in budgets.split_whitespace().enumerate() {
        left = budget.parse::<u64>().unwrap_or(left);
        let shown = shown(alloc, machine.run(&mut left))?;
        let text = if number == 0 {
            format!(in alloc; " {shown}")?
        } else {
            format!(in alloc; ", {shown} ({left} left)")?
        };
        answer.push_str(text.as_str())?;
    }
    Ok(answer)
}

fn shown(alloc: Global, pause: Pause) -> Result<String, AllocError> {
    match pause {
        Pause::Budget => String::from_str(alloc, "goes on"),
        Pause::Wrote(sample) => format!(in alloc; "wrote {sample}"),
        Pause::Ended { overflow, count } => format!(in alloc; "ended {overflow} {count}"),
        Pause::Stopped { site } => format!(in alloc; "stopped {site:08x}"),
        Pause::Fault { pc, kind } => format!(in alloc; "fault {pc:08x} {kind:?}"),
    }
}

fn words_in(alloc: Global, text: &str) -> Result<Option<Items<u32>>, AllocError> {
    let mut words = Items::new(alloc);
    for word in text.split_whitespace() {
        match hexadecimal(word) {
            Some(word) => words.push(word)?,
            None => return Ok(None),
        }
    }
    Ok(Some(words))
}

fn bytes_in(alloc: Global, text: &str) -> Result<Option<Items<u8>>, AllocError> {
    let mut bytes = Items::new(alloc);
    for byte in text.split_whitespace() {
        match hexadecimal(byte).and_then(|byte| u8::try_from(byte).ok()) {
            Some(byte) => bytes.push(byte)?,
            None => return Ok(None),
        }
    }
    Ok(Some(bytes))
}

fn samples_in(alloc: Global, text: &str) -> Result<Vec<i16>, AllocError> {
    let mut samples = Vec::new(alloc);
    for sample in text.split_whitespace() {
        if let Ok(sample) = sample.parse::<i16>() {
            samples.push(sample)?;
        }
    }
    Ok(samples)
}
