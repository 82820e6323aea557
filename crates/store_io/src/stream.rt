// Reading and writing whole files, one piece at a time.

ghost use Rattle.std.specs.Prelude.{◌≡◌, ◌+◌, ◌-◌, ◌<◌, ◌≤◌, ◌⊎◌, false, min, length, IfOk, OnOk, OnErr};
ghost use Rattle.std.specs.Io.KnownBytes.{Appends, IsAtEnd};
ghost use Rattle.store_io.specs.Stream.{GivesUpTo, GivesMore, AppendsPart, AppendsCount};

use std::alloc::Global;
use std::io;
use std::io::{ErrorKind, Read, Write};

/// How many bytes are read at a time.
pub const PIECE: usize = 4096;

/// Reads the first `most + 1` bytes of what a reader has left, or all where that is less.
pub fn read_up_to<R: Read>(alloc: Global, reader: &mut R, most: u64) -> io::Result<Vec<u8>>
    ensures bytes { IfOk result (λ bytes. GivesUpTo (R.remaining reader.old) most bytes.items) }
    ensures bound { IfOk result (λ bytes. length bytes.items ≤ most + 1) }
{
    let mut bytes = Vec::new(alloc);
    for _ in 0..u64::MAX {
        if !read_piece(reader, &mut bytes, most)? {
            return Ok(bytes);
        }
    }
    Err(io::Error::other("too many reads"))
}

// Whether to read on: no more bytes are wanted, or the reader has no more, where the answer is `false`.
fn read_piece<R: Read>(reader: &mut R, bytes: &mut Vec<u8>, most: u64) -> io::Result<bool>
    ensures bytes { IfOk result (λ _. GivesMore (R.remaining reader.old) (R.remaining reader.new) bytes.old.items bytes.new.items) }
    ensures bound { IfOk result (λ _. length bytes.old.items ≤ most + 1 → length bytes.new.items ≤ most + 1) }
    ensures last { IfOk result (λ more. more ≡ false → IsAtEnd (R.remaining reader.new) ⊎ (most < length bytes.new.items)) }
{
    let room = room_left(bytes.len(), most);
    if room == 0 {
        return Ok(false);
    }
    let mut buffer = [0u8; PIECE];
    let piece = &mut buffer[..room];
    match reader.read(piece) {
        Ok(0) => Ok(false),
        Ok(count) => {
            bytes.extend_from_slice(&piece[..count])?;
            Ok(true)
        }
        Err(error) if error.kind() == ErrorKind::Interrupted => Ok(true),
        Err(error) => Err(error),
    }
}

// How many bytes to read next: none past `most + 1`, and no more than a piece.
fn room_left(len: usize, most: u64) -> usize
    ensures { result ≡ min (most + 1 - len) PIECE }
{
    let len = len as u64;
    if len > most {
        0
    } else if most - len < PIECE as u64 {
        (most - len) as usize + 1
    } else {
        PIECE
    }
}

/// Writes all of the bytes and flushes. An error may come after a part of them was written.
pub fn write_whole<W: Write>(writer: &mut W, bytes: &[u8]) -> io::Result<()>
    ensures ok { OnOk result (Appends (W.contents writer.old) (W.contents writer.new) bytes.now) }
    ensures err { OnErr result (AppendsPart (W.contents writer.old) (W.contents writer.new) bytes.now) }
{
    let mut rest = bytes;
    for _ in 0..u64::MAX {
        if rest.is_empty() {
            return writer.flush();
        }
        let count = write_piece(writer, rest)?;
        rest = &rest[count..];
    }
    Err(io::Error::other("too many writes"))
}

// How many bytes were written, which is none only where the write was interrupted.
fn write_piece<W: Write>(writer: &mut W, bytes: &[u8]) -> io::Result<usize>
    ensures bound { IfOk result (λ count. count ≤ length bytes.now) }
    ensures bytes { AppendsCount (W.contents writer.old) (W.contents writer.new) result bytes.now }
{
    match writer.write(bytes) {
        Ok(0) => Err(io::Error::from(ErrorKind::WriteZero)),
        Ok(count) => Ok(count),
        Err(error) if error.kind() == ErrorKind::Interrupted => Ok(0),
        Err(error) => Err(error),
    }
}
