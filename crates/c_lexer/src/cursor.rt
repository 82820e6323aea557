// A place in a text.

ghost use Rattle.std.specs.Prelude.{◌≡◌, ◌+◌, ◌≤◌, length, take, drop};
ghost use Rattle.sat_base.specs.Position.{position_after, after_byte};
ghost use Rattle.sat_base.specs.declared.limits.TheConstants.{SOURCE_BYTES};

use sat_base::Pos;
use sat_base::limits::SOURCE_BYTES;

/// A place in a text.
#[derive(Clone, Copy)]
pub(crate) struct Cursor<'a> {
    pub(crate) text: &'a [u8],
    /// How many bytes stand before the place.
    pub(crate) at: usize,
    pub(crate) pos: Pos,
    ghost short: { length text.now ≤ SOURCE_BYTES },
    ghost within: { at ≤ length text.now },
    ghost place: { pos ≡ position_after (take at text.now) },
    ghost lines: { pos.line ≤ at + 1 },
    ghost columns: { pos.col ≤ at + 1 },
}

/// The place after one more byte.
fn after_byte(pos: Pos, byte: u8) -> Pos
    requires line { pos.line ≤ SOURCE_BYTES + 1 }
    requires col { pos.col ≤ SOURCE_BYTES + 1 }
    ensures value { result ≡ after_byte pos byte }
    ensures line { result.line ≤ pos.line + 1 }
    ensures col { result.col ≤ pos.col + 1 }
{
    if byte == b'\n' {
        Pos {
            line: pos.line + 1,
            col: 1,
        }
    } else {
        Pos {
            line: pos.line,
            col: pos.col + 1,
        }
    }
}

impl<'a> Cursor<'a> {
    /// The beginning of the text.
    pub(crate) fn new(text: &'a [u8]) -> Cursor<'a>
        requires { length text.now ≤ SOURCE_BYTES }
        ensures text { result.text.now ≡ text.now }
        ensures at { result.at ≡ 0 }
    {
        Cursor {
            text,
            at: 0,
            pos: Pos { line: 1, col: 1 },
        }
    }

    /// What stands after the place.
    pub(crate) fn rest(self) -> &'a [u8]
        ensures { result.now ≡ drop self.entry.at self.entry.text.now }
    {
        &self.text[self.at..]
    }

    /// The place after one more byte.
    fn next(self) -> Cursor<'a>
        requires { self.at + 1 ≤ length self.text.now }
        ensures text { result.text.now ≡ self.entry.text.now }
        ensures at { result.at ≡ self.entry.at + 1 }
    {
        Cursor {
            text: self.text,
            at: self.at + 1,
            pos: after_byte(self.pos, self.text[self.at]),
        }
    }

    /// The place after this many bytes more.
    pub(crate) fn after(self, len: usize) -> Cursor<'a>
        requires { self.at + len ≤ length self.text.now }
        ensures text { result.text.now ≡ self.entry.text.now }
        ensures at { result.at ≡ self.entry.at + len }
    {
        let end = self.at + len;
        let mut place = self;
        while place.at < end {
            place = place.next();
        }
        place
    }
}
