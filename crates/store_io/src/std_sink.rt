// Standard output as a sink.

ghost use Rattle.std.specs.Prelude.{◌≡◌, ◌≢◌, ◌+◌, ◌-◌, ◌^◌, ◌≤◌, None, min, OnOk, OnErr};

use crate::sink::{PutFail, Sink};
use crate::stream::write_whole;
use std::alloc::Global;
use std::io;

/// Standard output. It tells nothing of what was written. Each error of the system is a fault.
#[derive(Drop)]
pub struct StdSink<R> {
    rt: R,
    faults: u64,
}

impl<R> StdSink<R> {
    /// The standard output of `rt`, with no fault yet.
    pub fn new(rt: R) -> StdSink<R>
        ensures { result ≡ record { rt = rt; faults = 0 } }
    {
        StdSink { rt, faults: 0 }
    }

    /// How often the system failed.
    pub fn faults(&self) -> u64
        ensures { result ≡ self.now.faults }
    {
        self.faults
    }

    fn count_fault(&mut self)
        ensures count { self.new.faults ≡ min (self.old.faults + 1) (2 ^ 64 - 1) }
        ensures later { self.old.faults ≤ self.new.faults }
    {
        self.faults = self.faults.saturating_add(1);
    }
}

impl<R: Print> Sink for StdSink<R> {
    ghost written = { λ _. None };

    ghost faults = { λ sink. sink.faults };

    /// Each error of the system counts one fault. It may come when a part is written already, so that the
    /// system's want of memory is a failure too.
    fn put(&mut self, _alloc: Global, bytes: &[u8]) -> Result<(), PutFail>
        ensures ok { OnOk result (self.new.faults ≡ self.old.faults) }
        ensures failed { OnErr result (self.new.faults ≡ min (self.old.faults + 1) (2 ^ 64 - 1)) }
        ensures memory { result ≢ Err PutFail.Memory }
        ensures later { self.old.faults ≤ self.new.faults }
    {
        match write_whole(&mut io::writer(&self.rt), bytes) {
            Ok(()) => Ok(()),
            Err(_) => {
                self.count_fault();
                Err(PutFail::Failed)
            }
        }
    }
}
