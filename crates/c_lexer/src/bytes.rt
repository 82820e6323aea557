// Kinds of bytes.

ghost use Rattle.std.specs.Prelude.{◌≡◌, ◌≤◌, length, slice_index};
ghost use Rattle.std.specs.List.{prefix_len};
ghost use Rattle.c_lexer.specs.Lexeme.{is_white, is_word_start, is_word_byte, is_long_mark, is_short_mark, is_in_line};

/// Whether the byte is white space: a byte from 9 to 13, or a space.
pub(crate) fn is_white(byte: u8) -> bool
    ensures { result ≡ is_white byte }
{
    matches!(byte, 9..=13 | b' ')
}

/// Whether a word begins with the byte: a letter or `_`.
pub(crate) fn is_word_start(byte: u8) -> bool
    ensures { result ≡ is_word_start byte }
{
    byte.is_ascii_alphabetic() || byte == b'_'
}

/// Whether the byte stands in words and numbers: a letter, a digit or `_`.
pub(crate) fn is_word_byte(byte: u8) -> bool
    ensures { result ≡ is_word_byte byte }
{
    byte.is_ascii_alphanumeric() || byte == b'_'
}

/// Whether the two bytes are a mark.
pub(crate) fn is_long_mark(first: u8, second: u8) -> bool
    ensures { result ≡ is_long_mark first second }
{
    match second {
        b'=' => matches!(
            first,
            b'=' | b'!' | b'<' | b'>' | b'+' | b'-' | b'*' | b'&' | b'|' | b'^'
        ),
        b'&' | b'|' | b'+' | b'-' => first == second,
        _ => false,
    }
}

/// Whether the byte is a mark.
pub(crate) fn is_short_mark(byte: u8) -> bool
    ensures { result ≡ is_short_mark byte }
{
    b"()[]{},;?:=<>+-*&|^~!".contains(&byte)
}

/// How many bytes at the front of the text stand in words and numbers.
pub(crate) fn word_len(text: &[u8]) -> usize
    ensures value { result ≡ prefix_len is_word_byte text.now }
    ensures within { result ≤ length text.now }
{
    text.iter().take_while(|byte| is_word_byte(**byte)).count()
}

/// How many bytes stand before the first line feed.
pub(crate) fn line_len(text: &[u8]) -> usize
    ensures value { result ≡ prefix_len is_in_line text.now }
    ensures within { result ≤ length text.now }
{
    text.iter().take_while(|byte| **byte != b'\n').count()
}
