// The entries of an image file.

ghost use Rattle.std.specs.Prelude.{◌≡◌, ◌<◌, IfSome};
ghost use Rattle.image_format.specs.Parts.{entry_in};
ghost use Rattle.image_format.specs.Rules.{first_broken, place_rules, choice_rules, is_wrong_operand, register_rules, spare_rules, entry_rules};

use crate::header::{file_half, file_word};
use crate::image::SiteEntry;

/// The most words of an entry.
const MOST_WORDS: u16 = 96;

/// The greatest number of a kind, and the one kind that has a bound.
const GREATEST_KIND: u8 = 36;

const BOUND_KIND: u8 = 33;

const GREATEST_FORM: u8 = 2;

const GREATEST_GUARD: u8 = 1;

const MOST_OPERANDS: u8 = 3;

const GREATEST_REGISTER: u8 = 31;

/// The entry in these bytes.
pub fn entry_of(bytes: &[u8; 28]) -> SiteEntry
    ensures { result ≡ entry_in bytes.now }
{
    SiteEntry {
        first: file_word(bytes, 0),
        line: file_word(bytes, 4),
        col: file_word(bytes, 8),
        bound: file_word(bytes, 12),
        words: file_half(bytes, 16),
        kind: bytes[18],
        form: bytes[19],
        guard: bytes[20],
        operands: bytes[21],
        result: bytes[22],
        reg_a: bytes[23],
        reg_b: bytes[24],
        reg_c: bytes[25],
    }
}

/// The offset of the first wrong field in the bytes of an entry, where the code has so many words.
pub fn wrong_field(code_words: u32, bytes: &[u8; 28]) -> Option<u32>
    ensures first { result ≡ first_broken (entry_rules code_words bytes.now) }
    ensures within { IfSome result (λ offset. offset < 28) }
{
    let entry = entry_of(bytes);
    wrong_place(code_words, entry)
        .or(wrong_choice(entry))
        .or(wrong_register(entry))
        .or(wrong_spare(bytes))
}

fn wrong_place(code_words: u32, entry: SiteEntry) -> Option<u32>
    ensures first { result ≡ first_broken (place_rules code_words entry) }
    ensures within { IfSome result (λ offset. offset < 28) }
{
    if u64::from(entry.first) + u64::from(entry.words) > u64::from(code_words) {
        return Some(0);
    }
    if entry.bound != 0 && entry.kind != BOUND_KIND {
        return Some(12);
    }
    if entry.words > MOST_WORDS {
        return Some(16);
    }
    None
}

fn wrong_choice(entry: SiteEntry) -> Option<u32>
    ensures first { result ≡ first_broken (choice_rules entry) }
    ensures within { IfSome result (λ offset. offset < 28) }
{
    if entry.kind > GREATEST_KIND {
        return Some(18);
    }
    if entry.form > GREATEST_FORM {
        return Some(19);
    }
    if entry.guard > GREATEST_GUARD {
        return Some(20);
    }
    if entry.operands > MOST_OPERANDS {
        return Some(21);
    }
    None
}

fn wrong_register(entry: SiteEntry) -> Option<u32>
    ensures first { result ≡ first_broken (register_rules entry) }
    ensures within { IfSome result (λ offset. offset < 28) }
{
    if entry.result > GREATEST_REGISTER {
        return Some(22);
    }
    if is_wrong_operand(entry, 0, entry.reg_a) {
        return Some(23);
    }
    if is_wrong_operand(entry, 1, entry.reg_b) {
        return Some(24);
    }
    if is_wrong_operand(entry, 2, entry.reg_c) {
        return Some(25);
    }
    None
}

/// A register that there is not, or one that is not 0 though the entry has no operand at its place.
fn is_wrong_operand(entry: SiteEntry, place: u8, register: u8) -> bool
    ensures { result ≡ is_wrong_operand entry place register }
{
    register > GREATEST_REGISTER || (entry.operands <= place && register != 0)
}

fn wrong_spare(bytes: &[u8; 28]) -> Option<u32>
    ensures first { result ≡ first_broken (spare_rules bytes.now) }
    ensures within { IfSome result (λ offset. offset < 28) }
{
    if bytes[26] != 0 {
        return Some(26);
    }
    if bytes[27] != 0 {
        return Some(27);
    }
    None
}
