// Reading and writing in pieces.

use std::io;
use std::io::{ErrorKind, Read, Write};
use store_io::stream::{PIECE, read_up_to, write_whole};

// A reader of zeros and a writer of three bytes at a time, which fails once it has no turns left.
#[derive(Drop)]
struct Short {
    turns: u8,
    written: usize,
}

impl Read for Short {
    fn read(&mut self, buf: &mut [u8]) -> io::Result<usize> {
        self.next_turn()?;
        Ok(buf.len().min(3))
    }
}

impl Write for Short {
    fn write(&mut self, buf: &[u8]) -> io::Result<usize> {
        self.next_turn()?;
        let count = buf.len().min(3);
        self.written = self.written.saturating_add(count);
        Ok(count)
    }

    fn flush(&mut self) -> io::Result<()> {
        Ok(())
    }
}

impl Short {
    // Every other turn is interrupted, and must be taken again.
    fn next_turn(&mut self) -> io::Result<()> {
        let Some(left) = self.turns.checked_sub(1) else {
            return Err(io::Error::from(ErrorKind::BrokenPipe));
        };
        self.turns = left;
        if left % 2 == 1 {
            return Err(io::Error::from(ErrorKind::Interrupted));
        }
        Ok(())
    }
}

fn short_of(turns: u8) -> Short {
    Short { turns, written: 0 }
}

#[test]
fn reads_in_pieces(rt: HostRuntime) {
    let text = vec![in rt.alloc(); 7u8; 2 * PIECE + 1];
    let text = text.expect(&rt, "there is memory");
    for (most, want) in [(0u64, 1usize), (4095, 4096), (4096, 4097), (u64::MAX, 8193)] {
        let read = read_up_to(rt.alloc(), &mut text.as_slice(), most);
        let bytes = read.expect(&rt, "a slice does not fail");
        assert_eq!(rt; bytes.len(), want, "at {most}");
    }
}

#[test]
fn takes_short_and_interrupted_turns(rt: HostRuntime) {
    let read = read_up_to(rt.alloc(), &mut short_of(8), 10);
    let bytes = read.expect(&rt, "four turns read eleven bytes");
    assert_eq!(rt; bytes.len(), 11);
    assert!(rt; read_up_to(rt.alloc(), &mut short_of(6), 10).is_err());

    let mut whole = short_of(8);
    assert!(rt; write_whole(&mut whole, b"7 bytes").is_ok());
    assert_eq!(rt; whole.written, 7);
    let mut part = short_of(4);
    assert!(rt; write_whole(&mut part, b"7 bytes").is_err());
    assert_eq!(rt; part.written, 6);
}
