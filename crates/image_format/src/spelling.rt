// The bytes of an image.

ghost use Rattle.std.specs.Prelude.{◌≡◌, ◌++◌, IfOk, OnOk};
ghost use Rattle.std.specs.List.{flat_map};
ghost use Rattle.image_format.specs.ImageBytes.{word_bytes, half_bytes, count_bytes, header_bytes, entry_bytes, image_bytes};

use crate::image::{Image, SiteEntry};
use byteorder::{ByteOrder, LittleEndian};
use sat_base::Memory;
use std::alloc::{AllocError, Global};

/// The bytes of an image, by version 1 of its format. A count is written modulo 2^32.
pub fn write_bytes(alloc: Global, image: &Image) -> Result<Vec<u8>, Memory>
    ensures { IfOk result (λ bytes. bytes.items ≡ image_bytes image.now) }
{
    let mut bytes = Vec::new(alloc);
    push_header(&mut bytes, image)?;
    push_code(&mut bytes, image.code.as_slice())?;
    bytes.extend_from_slice(image.memory.as_slice())?;
    push_entries(&mut bytes, image.sites.as_slice())?;
    Ok(bytes)
}

fn push_header(bytes: &mut Vec<u8>, image: &Image) -> Result<(), AllocError>
    ensures { OnOk result (bytes.new.items ≡ bytes.old.items ++ header_bytes image.now) }
{
    bytes.extend_from_slice(b"SATI")?;
    push_word(bytes, 1)?;
    push_counts(bytes, image)
}

fn push_counts(bytes: &mut Vec<u8>, image: &Image) -> Result<(), AllocError>
    ensures { OnOk result (bytes.new.items ≡ bytes.old.items ++ count_bytes image.now) }
{
    push_count(bytes, image.code.len())?;
    push_count(bytes, image.memory.len())?;
    push_count(bytes, image.sites.len())
}

fn push_count(bytes: &mut Vec<u8>, count: usize) -> Result<(), AllocError>
    ensures { OnOk result (bytes.new.items ≡ bytes.old.items ++ word_bytes count) }
{
    push_word(bytes, (count % 0x1_0000_0000) as u32)
}

fn push_code(bytes: &mut Vec<u8>, code: &[u32]) -> Result<(), AllocError>
    ensures { OnOk result (bytes.new.items ≡ bytes.old.items ++ flat_map word_bytes code.now) }
{
    for word in code {
        push_word(bytes, *word)?;
    }
    Ok(())
}

fn push_entries(bytes: &mut Vec<u8>, entries: &[SiteEntry]) -> Result<(), AllocError>
    ensures { OnOk result (bytes.new.items ≡ bytes.old.items ++ flat_map entry_bytes entries.now) }
{
    for entry in entries {
        push_entry(bytes, entry)?;
    }
    Ok(())
}

fn push_entry(bytes: &mut Vec<u8>, entry: &SiteEntry) -> Result<(), AllocError>
    ensures { OnOk result (bytes.new.items ≡ bytes.old.items ++ entry_bytes entry.now) }
{
    push_word(bytes, entry.first)?;
    push_word(bytes, entry.line)?;
    push_word(bytes, entry.col)?;
    push_word(bytes, entry.bound)?;
    push_half(bytes, entry.words)?;
    bytes.extend_from_slice(&[
        entry.kind,
        entry.form,
        entry.guard,
        entry.operands,
        entry.result,
        entry.reg_a,
        entry.reg_b,
        entry.reg_c,
        0,
        0,
    ])
}

fn push_word(bytes: &mut Vec<u8>, number: u32) -> Result<(), AllocError>
    ensures { OnOk result (bytes.new.items ≡ bytes.old.items ++ word_bytes number) }
{
    let mut word = [0; 4];
    LittleEndian::write_u32(&mut word, number);
    bytes.extend_from_slice(&word)
}

fn push_half(bytes: &mut Vec<u8>, number: u16) -> Result<(), AllocError>
    ensures { OnOk result (bytes.new.items ≡ bytes.old.items ++ half_bytes number) }
{
    let mut half = [0; 2];
    LittleEndian::write_u16(&mut half, number);
    bytes.extend_from_slice(&half)
}
