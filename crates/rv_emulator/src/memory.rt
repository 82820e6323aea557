// The data memory.

ghost use Rattle.std.specs.Prelude.{◌≡◌, ◌+◌, ◌<◌, IfOk, IsTrue};
ghost use Rattle.rv_encode.specs.State.{is_inside, word_at, with_word, half_at, with_half, byte_at, with_byte};

use std::alloc::{AllocError, Global};
use std::marker::Model;

/// Where the data memory begins.
pub const DATA_START: u32 = 0x1000_0000;

/// The bytes of the data memory, from its first address on. A word is little-endian.
#[derive(Debug, Drop)]
pub struct DataMemory {
    bytes: Vec<u8>,
}

impl Model for DataMemory {
    ghost use Rattle.std.specs.Prelude.{List, ℕ};

    ghost Value = { List ℕ };

    ghost view = { λ memory. memory.bytes.items };
}

impl DataMemory {
    /// A memory that has these bytes.
    pub fn from_slice(alloc: Global, bytes: &[u8]) -> Result<DataMemory, AllocError>
        ensures { IfOk result (λ memory. memory ≡ bytes.now) }
    {
        Ok(DataMemory {
            bytes: Vec::from_slice(alloc, bytes)?,
        })
    }

    /// Whether this many bytes from an address on all lie in the memory.
    pub fn has(&self, address: u32, size: u32) -> bool
        ensures { result ≡ is_inside self.now address size }
    {
        match address.checked_sub(DATA_START) {
            Some(place) => place as usize + size as usize <= self.bytes.len(),
            None => false,
        }
    }

    /// The word at an address.
    pub fn word_at(&self, address: u32) -> u32
        requires { IsTrue (is_inside self.now address 4) }
        ensures { result ≡ word_at self.now address }
    {
        let place = (address - DATA_START) as usize;
        u32::from_le_bytes([
            self.bytes[place],
            self.bytes[place + 1],
            self.bytes[place + 2],
            self.bytes[place + 3],
        ])
    }

    /// Writes a word at an address.
    pub fn set_word(&mut self, address: u32, word: u32)
        requires { IsTrue (is_inside self.old address 4) }
        ensures { self.new ≡ with_word self.old address word }
    {
        let place = (address - DATA_START) as usize;
        self.bytes[place..place + 4].copy_from_slice(&word.to_le_bytes());
    }

    /// The two bytes at an address.
    pub fn half_at(&self, address: u32) -> u16
        requires { IsTrue (is_inside self.now address 2) }
        ensures { result ≡ half_at self.now address }
    {
        let place = (address - DATA_START) as usize;
        u16::from_le_bytes([self.bytes[place], self.bytes[place + 1]])
    }

    /// Writes two bytes at an address.
    pub fn set_half(&mut self, address: u32, half: u16)
        requires { IsTrue (is_inside self.old address 2) }
        ensures { self.new ≡ with_half self.old address half }
    {
        let place = (address - DATA_START) as usize;
        self.bytes[place..place + 2].copy_from_slice(&half.to_le_bytes());
    }

    /// The byte at an address.
    pub fn byte_at(&self, address: u32) -> u8
        requires { IsTrue (is_inside self.now address 1) }
        ensures { result ≡ byte_at self.now address }
    {
        self.bytes[(address - DATA_START) as usize]
    }

    /// Writes a byte at an address.
    pub fn set_byte(&mut self, address: u32, byte: u8)
        requires { IsTrue (is_inside self.old address 1) }
        ensures { self.new ≡ with_byte self.old address byte }
    {
        self.bytes[(address - DATA_START) as usize] = byte;
    }
}
