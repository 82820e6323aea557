// A sink of bytes.

ghost use Rattle.std.specs.Prelude.{◌≡◌, ℕ, ◌≤◌, List, Option, OnOk};
ghost use Rattle.store_io.specs.Outside.{Rose, GrowsByPart, text_with};

use std::alloc::Global;

/// Why bytes were not put.
#[derive(Clone, Copy, Debug, PartialEq, Eq)]
pub enum PutFail {
    /// The sink failed.
    Failed,
    /// Want of memory.
    Memory,
}

/// A sink of bytes, as a terminal. It may tell what was written, and it counts its own faults in a number
/// that never falls.
pub trait Sink {
    /// What was written, where the sink tells it.
    ghost written: { Self → Option (List ℕ) };

    /// How often the sink failed. The count stands still at 2^64 - 1.
    ghost faults: { Self → ℕ };

    /// Writes the bytes after what was written.
    fn put(&mut self, alloc: Global, bytes: &[u8]) -> Result<(), PutFail>
        ensures ok { OnOk result (written self.new ≡ text_with (written self.old) bytes.now) }
        ensures failed { result ≡ Err PutFail.Failed → Rose (faults self.old) (faults self.new) }
        ensures part { result ≡ Err PutFail.Failed → GrowsByPart (written self.old) (written self.new) bytes.now }
        ensures memory { result ≡ Err PutFail.Memory → written self.new ≡ written self.old }
        ensures later { faults self.old ≤ faults self.new };
}
