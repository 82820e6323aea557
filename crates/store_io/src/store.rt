// A store of files by name.

ghost use Rattle.std.specs.Prelude.{◌≡◌, ℕ, ◌≤◌, Option, IfOk, OnOk};
ghost use Rattle.store_io.specs.Outside.{Files, Rose, ReadsFile, IsMissing, WritesPart, files_with};

use std::alloc::Global;

/// Why a file was not read.
#[derive(Clone, Copy, Debug, PartialEq, Eq)]
pub enum ReadFail {
    /// The store has no file of that name.
    Missing,
    /// The store failed.
    Failed,
    /// Want of memory.
    Memory,
}

/// Why a file was not written.
#[derive(Clone, Copy, Debug, PartialEq, Eq)]
pub enum WriteFail {
    /// The store failed.
    Failed,
    /// Want of memory.
    Memory,
}

/// A store of files by name. It may tell its files, and it counts its own faults in a number that never
/// falls, so that a caller cannot claim a failure that the store did not have.
pub trait Store {
    /// The files, where the store tells them.
    ghost files: { Self → Option Files };

    /// How often the store failed. The count stands still at 2^64 - 1.
    ghost faults: { Self → ℕ };

    /// Reads the first `most + 1` bytes of a file, or all of it where it is shorter.
    fn read(&mut self, alloc: Global, name: &str, most: u64) -> Result<Vec<u8>, ReadFail>
        ensures bytes { IfOk result (λ bytes. ReadsFile (files self.old) name.now most bytes.items) }
        ensures missing { result ≡ Err ReadFail.Missing → IsMissing (files self.old) name.now (faults self.old) (faults self.new) }
        ensures failed { result ≡ Err ReadFail.Failed → Rose (faults self.old) (faults self.new) }
        ensures same { files self.new ≡ files self.old }
        ensures later { faults self.old ≤ faults self.new };

    /// Gives a file these bytes and no others, whether or not there was one of that name.
    fn write(&mut self, alloc: Global, name: &str, bytes: &[u8]) -> Result<(), WriteFail>
        ensures ok { OnOk result (files self.new ≡ files_with (files self.old) name.now bytes.now) }
        ensures failed { result ≡ Err WriteFail.Failed → Rose (faults self.old) (faults self.new) }
        ensures part { result ≡ Err WriteFail.Failed → WritesPart (files self.old) (files self.new) name.now bytes.now }
        ensures memory { result ≡ Err WriteFail.Memory → files self.new ≡ files self.old }
        ensures later { faults self.old ≤ faults self.new };
}
