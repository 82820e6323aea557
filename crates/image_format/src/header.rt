// The beginning of an image file: its magic, its version and its counts.

ghost use Rattle.std.specs.Prelude.{◌≡◌, ◌+◌, ◌<◌, ◌≤◌, ◌^◌, length, IfOk};
ghost use Rattle.image_format.specs.Parts.{file_word, file_half, counts_in, file_bytes_of};
ghost use Rattle.image_format.specs.Rules.{Judges, told_rules, count_rules, header_rules};

use crate::refusal::ImageRefusal;

/// How many bytes stand before the code.
pub const HEADER_BYTES: usize = 20;

/// The number that the bytes `SATI` spell.
const MAGIC: u32 = 0x4954_4153;

/// The most words of code, bytes of data memory and sites of an image file.
const MOST_WORDS: u32 = 16_777_216;

const MOST_MEMORY: u32 = 16_777_216;

const MOST_SITES: u32 = 131_072;

/// How many words of code, bytes of data memory and sites an image file tells of.
#[derive(Clone, Copy)]
pub struct Counts {
    pub words: u32,
    pub memory: u32,
    pub sites: u32,
}

impl Counts {
    ghost use Rattle.std.specs.Prelude.{◌*◌};
    ghost use Rattle.image_format.specs.Parts.{first_entry_of};

    /// The bytes of the code.
    pub fn code_bytes(&self) -> usize
        ensures { result ≡ 4 * self.now.words }
    {
        4 * self.words as usize
    }

    /// The place of the first entry.
    pub fn first_entry(&self) -> u32
        requires { first_entry_of self.now < 2 ^ 32 }
        ensures { result ≡ first_entry_of self.now }
    {
        20 + 4 * self.words + self.memory
    }

    /// The bytes of the whole file.
    fn file_bytes(&self) -> u32
        requires { file_bytes_of self.now < 2 ^ 32 }
        ensures { result ≡ file_bytes_of self.now }
    {
        self.first_entry() + 28 * self.sites
    }

    /// The counts, where none is more than a file may have, and the data memory has whole words.
    fn judged(self) -> Result<Counts, ImageRefusal>
        ensures answer { Judges (count_rules self) self result }
        ensures small { IfOk result (λ counts. file_bytes_of counts < 2 ^ 32) }
    {
        if self.words > MOST_WORDS {
            return Err(ImageRefusal::Shape { at: 8 });
        }
        if self.memory > MOST_MEMORY || self.memory % 4 != 0 {
            return Err(ImageRefusal::Shape { at: 12 });
        }
        if self.sites > MOST_SITES {
            return Err(ImageRefusal::Shape { at: 16 });
        }
        Ok(self)
    }
}

/// The counts, where the beginning keeps its rules and the file has as many bytes as it tells of.
pub fn counts_of(bytes: &[u8]) -> Result<Counts, ImageRefusal>
    ensures answer { Judges (header_rules bytes.now) (counts_in bytes.now) result }
    ensures whole { IfOk result (λ counts. file_bytes_of counts ≡ length bytes.now) }
    ensures small { IfOk result (λ counts. file_bytes_of counts < 2 ^ 32) }
{
    let counts = told_counts(bytes)?;
    let file_bytes = counts.file_bytes();
    if bytes.len() < file_bytes as usize {
        return Err(ImageRefusal::Short {
            at: bytes.len() as u32,
        });
    }
    if bytes.len() > file_bytes as usize {
        return Err(ImageRefusal::Extra { at: file_bytes });
    }
    Ok(counts)
}

/// The counts that the beginning tells of, where it keeps its rules.
fn told_counts(bytes: &[u8]) -> Result<Counts, ImageRefusal>
    ensures answer { Judges (told_rules bytes.now) (counts_in bytes.now) result }
    ensures small { IfOk result (λ counts. file_bytes_of counts < 2 ^ 32) }
{
    if bytes.len() < HEADER_BYTES {
        return Err(ImageRefusal::Short {
            at: bytes.len() as u32,
        });
    }
    if file_word(bytes, 0) != MAGIC {
        return Err(ImageRefusal::Magic);
    }
    let version = file_word(bytes, 4);
    if version != 1 {
        return Err(ImageRefusal::Version(version));
    }
    let counts = Counts {
        words: file_word(bytes, 8),
        memory: file_word(bytes, 12),
        sites: file_word(bytes, 16),
    };
    counts.judged()
}

/// The number in the four bytes from this place on.
pub fn file_word(bytes: &[u8], place: usize) -> u32
    requires { place + 4 ≤ length bytes.now }
    ensures { result ≡ file_word bytes.now place }
{
    let bytes = &bytes[place..];
    u32::from_le_bytes([bytes[0], bytes[1], bytes[2], bytes[3]])
}

/// The number in the two bytes from this place on.
pub fn file_half(bytes: &[u8], place: usize) -> u16
    requires { place + 2 ≤ length bytes.now }
    ensures { result ≡ file_half bytes.now place }
{
    let bytes = &bytes[place..];
    u16::from_le_bytes([bytes[0], bytes[1]])
}
