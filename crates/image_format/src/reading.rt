// The image that the bytes of a file spell.

ghost use Rattle.std.specs.Prelude.{◌≡◌, ◌+◌, ◌<◌, ◌^◌, length, IfOk, IfErr};
ghost use Rattle.image_format.specs.Parts.{first_entry_of, words_in, image_in};
ghost use Rattle.image_format.specs.Rules.{Judges, JudgesEntries, image_rules};
ghost use Rattle.image_format.specs.Reading.{IsFileOf, IsRead, IsRefusedSo};

use crate::entry::{entry_of, wrong_field};
use crate::header::{Counts, HEADER_BYTES, counts_of};
use crate::image::{Image, SiteEntry};
use crate::refusal::ImageRefusal;
use sat_base::Memory;
use sqlite_items::Items;
use std::alloc::Global;

/// The image that these bytes spell, by version 1 of the format. Bytes that spell none are refused for the first rule that
/// they break, in this order: they are at least 20; they begin with the magic, and then the version; no count is too large;
/// they are as many as the counts tell of; and entry by entry, and in each from its front, no field is wrong.
pub fn read_bytes(alloc: Global, bytes: &[u8]) -> Result<Image, ImageRefusal>
    ensures spelled { IfOk result (λ image. IsFileOf image bytes.now) }
    ensures cause { IfErr result (IsRefusedSo bytes.now) }
    ensures exact { IsRead bytes.now result }
{
    read_image(alloc, bytes)
}

fn read_image(alloc: Global, bytes: &[u8]) -> Result<Image, ImageRefusal>
    ensures { Judges (image_rules bytes.now) (image_in bytes.now) result }
{
    let counts = counts_of(bytes)?;
    let (code, rest) = bytes[HEADER_BYTES..].split_at(counts.code_bytes());
    let (memory, sites) = rest.split_at(counts.memory as usize);
    Ok(Image {
        code: words_of(alloc, code)?,
        memory: Items::from_slice(alloc, memory)?,
        sites: entries_of(alloc, counts, sites)?,
    })
}

fn words_of(alloc: Global, bytes: &[u8]) -> Result<Items<u32>, Memory>
    ensures { IfOk result (λ words. words ≡ words_in bytes.now) }
{
    let (words, _rest) = bytes.as_chunks::<4>();
    let words = words
        .iter()
        .map(|word| u32::from_le_bytes(*word))
        .collect(alloc)?;
    Ok(Items::from_vec(words))
}

fn entries_of(alloc: Global, counts: Counts, bytes: &[u8]) -> Result<Items<SiteEntry>, ImageRefusal>
    requires { first_entry_of counts + length bytes.now < 2 ^ 32 }
    ensures { JudgesEntries counts bytes.now result }
{
    let (chunks, _rest) = bytes.as_chunks::<28>();
    let mut entries = Vec::new(alloc);
    let mut place = counts.first_entry();
    for chunk in chunks {
        if let Some(offset) = wrong_field(counts.words, chunk) {
            return Err(ImageRefusal::Shape { at: place + offset });
        }
        entries.push(entry_of(chunk))?;
        place += 28;
    }
    Ok(Items::from_vec(entries))
}
