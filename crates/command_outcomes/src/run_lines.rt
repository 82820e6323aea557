// What is told of runs.

ghost use Rattle.std.specs.Prelude.{◌≡◌, ◌++◌, ◌%◌, false, Some, IfOk, codes};
ghost use Rattle.std.specs.Fmt.{decimal, digit_glyph};
ghost use Rattle.std.specs.Option.{option_copied};
ghost use Rattle.sat_compile.specs.Promise.{kind_number};
ghost use Rattle.command_outcomes.specs.RunLines.{end_line, stop_line, image_stop_line, source_stop_line, stop_words, words_at, unknown_words, fault_line, fault_words, word_digits, image_line};

use crate::outcome::{Outcome, text};
use image_format::{ImageRefusal, SiteEntry};
use operator_meaning::{Site, SiteKind, place};
use sat_base::{MachineFault, Pos};
use sqlite_items::Items;
use std::alloc::{AllocError, Global};

/// The run ended, with this value of Overflow and this weighted count.
pub fn ended(alloc: Global, overflow: i32, count: u64) -> Result<Outcome, AllocError>
    ensures { IfOk result (λ outcome. outcome ≡ Outcome.Done (Some (end_line overflow count))) }
{
    let line = format!(in alloc; "end {overflow} {count}\n")?;
    Ok(Outcome::Done(Some(text(line))))
}

/// The run of an image with these entries stopped at the site of this number.
pub fn stopped_image(alloc: Global, sites: &[SiteEntry], site: u32) -> Result<Outcome, AllocError>
    ensures { IfOk result (λ outcome. outcome ≡ Outcome.Stopped (image_stop_line sites.now site)) }
{
    match sites.get(site as usize) {
        Some(entry) => {
            let at = Pos {
                line: entry.line,
                col: entry.col,
            };
            stopped_at(alloc, site, at, entry.kind)
        }
        None => unknown(alloc, site),
    }
}

/// The run of a source with these sites stopped at the site of this number.
pub fn stopped_source(alloc: Global, sites: &[Site], site: u32) -> Result<Outcome, AllocError>
    ensures { IfOk result (λ outcome. outcome ≡ Outcome.Stopped (source_stop_line sites.now site)) }
{
    match sites.get(site as usize) {
        Some(there) => stopped_at(alloc, site, there.pos, kind_number(there.kind)),
        None => unknown(alloc, site),
    }
}

// The run stopped at the site of this number, which has this place and the kind of this number.
fn stopped_at(alloc: Global, site: u32, at: Pos, kind: u8) -> Result<Outcome, AllocError>
    ensures { IfOk result (λ outcome. outcome ≡ Outcome.Stopped (stop_line site (words_at at.line at.col (stop_words kind)))) }
{
    let Some(words) = stop_words(kind) else {
        return unknown(alloc, site);
    };
    let line = format!(in alloc; "stop {site} {}:{} {words}\n", at.line, at.col)?;
    Ok(Outcome::Stopped(text(line)))
}

fn unknown(alloc: Global, site: u32) -> Result<Outcome, AllocError>
    ensures { IfOk result (λ outcome. outcome ≡ Outcome.Stopped (stop_line site unknown_words)) }
{
    let line = format!(in alloc; "stop {site} unknown\n")?;
    Ok(Outcome::Stopped(text(line)))
}

// The number that an image has for a kind.
fn kind_number(kind: SiteKind) -> u8
    ensures { result ≡ kind_number kind }
{
    match kind {
        SiteKind::Call(op) => place(op),
        SiteKind::Sum => 29,
        SiteKind::Difference => 30,
        SiteKind::Product => 31,
        SiteKind::Opposite => 32,
        SiteKind::Bound(_) => 33,
        SiteKind::ViewBound => 34,
        SiteKind::ViewEdge => 35,
        SiteKind::Sample => 36,
    }
}

// How a site stops whose kind has this number in an image.
fn stop_words(kind: u8) -> Option<&'static str>
    ensures { option_copied result ≡ stop_words kind }
{
    match kind {
        28 => Some("division"),
        29..=32 => Some("arithmetic"),
        33..=35 => Some("index"),
        36 => Some("input"),
        _ => None,
    }
}

/// The machine faulted at this place of the code.
pub fn faulted(alloc: Global, pc: u32, kind: MachineFault) -> Result<Outcome, AllocError>
    ensures { IfOk result (λ outcome. outcome ≡ Outcome.Faulted (fault_line pc kind)) }
{
    let mut line = Vec::from_slice(alloc, b"fault ")?;
    line.extend_from_slice(&word_digits(pc))?;
    line.push(b' ')?;
    line.extend_from_slice(fault_words(kind).as_bytes())?;
    line.push(b'\n')?;
    Ok(Outcome::Faulted(Items::from_vec(line)))
}

// A number in eight digits of base 16.
fn word_digits(number: u32) -> [u8; 8]
    ensures { result ≡ word_digits number }
{
    [
        digit(number / 0x1000_0000),
        digit(number / 0x100_0000),
        digit(number / 0x10_0000),
        digit(number / 0x1_0000),
        digit(number / 0x1000),
        digit(number / 0x100),
        digit(number / 0x10),
        digit(number),
    ]
}

// The last digit of a number in base 16.
fn digit(number: u32) -> u8
    ensures { result ≡ digit_glyph false (number % 16) }
{
    let digit = (number % 16) as u8;
    if digit < 10 {
        b'0' + digit
    } else {
        b'a' - 10 + digit
    }
}

fn fault_words(kind: MachineFault) -> &'static str
    ensures { result.now ≡ fault_words kind }
{
    match kind {
        MachineFault::Word => "word",
        MachineFault::Fetch => "fetch",
        MachineFault::Jump => "jump",
        MachineFault::Load => "load",
        MachineFault::Store => "store",
        MachineFault::Align => "align",
        MachineFault::Break => "break",
        MachineFault::Call => "call",
        MachineFault::Input => "input",
    }
}

/// The bytes are no image.
pub fn image_refused(alloc: Global, refusal: ImageRefusal) -> Result<Outcome, AllocError>
    ensures { IfOk result (λ outcome. outcome ≡ Outcome.Unfit (image_line refusal)) }
{
    let line = match refusal {
        ImageRefusal::Short { at } => format!(in alloc; "image short at {at}\n")?,
        ImageRefusal::Magic => String::from_str(alloc, "image magic\n")?,
        ImageRefusal::Version(number) => format!(in alloc; "image version {number}\n")?,
        ImageRefusal::Shape { at } => format!(in alloc; "image shape at {at}\n")?,
        ImageRefusal::Extra { at } => format!(in alloc; "image extra at {at}\n")?,
        ImageRefusal::Memory => String::from_str(alloc, "out of memory\n")?,
    };
    Ok(Outcome::Unfit(text(line)))
}

/// A file is not what the command asks for, as a line tells.
pub fn unfit(alloc: Global, line: &str) -> Result<Outcome, AllocError>
    ensures { IfOk result (λ outcome. outcome ≡ Outcome.Unfit line.now) }
{
    Ok(Outcome::Unfit(text(String::from_str(alloc, line)?)))
}
