// A sink that is kept in memory and never fails.

ghost use Rattle.std.specs.Prelude.{◌≡◌, [], Some};

use crate::sink::{PutFail, Sink};
use std::alloc::Global;
use std::marker::Model;

/// A sink that keeps in memory what was written, and never fails. A contract sees it as these bytes.
#[derive(Debug, Drop)]
pub struct CalmSink {
    written: Vec<u8>,
}

impl Model for CalmSink {
    ghost use Rattle.std.specs.Prelude.{ℕ, List};
    ghost use Rattle.std.specs.Coded.{coded_list, coded_ℕ};

    ghost Value = { List ℕ };

    ghost coded = { coded_list coded_ℕ };

    ghost view = { λ a. a.written.items };
}

impl CalmSink {
    /// Nothing is written yet. It takes no memory.
    pub fn new(alloc: Global) -> CalmSink
        ensures { result ≡ [] }
    {
        CalmSink {
            written: Vec::new(alloc),
        }
    }

    /// What was written.
    pub fn bytes(&self) -> &[u8]
        ensures { result.now ≡ self.now }
    {
        self.written.as_slice()
    }
}

impl Sink for CalmSink {
    ghost written = { λ sink. Some sink };

    ghost faults = { λ _. 0 };

    fn put(&mut self, _alloc: Global, bytes: &[u8]) -> Result<(), PutFail> {
        self.written
            .extend_from_slice(bytes)
            .map_err(|_| PutFail::Memory)
    }
}
