// A sink that is kept in memory and fails by a list, for tests of failure.

ghost use Rattle.std.specs.Prelude.{◌≡◌, ◌≢◌, ◌≤◌, ◌++◌, [], Some, IfOk, OnOk};
ghost use Rattle.store_io.specs.Failing.{CallsDiffer, fails_now, failed_before, put_answer, after_no_put, after_put};
ghost use Rattle.store_io.specs.Outside.{Rose, GrowsByPart};

use crate::calm_sink::CalmSink;
use crate::failing::{Calls, Failing, bytes_taken};
use crate::sink::{PutFail, Sink};
use sat_base::Memory;
use std::alloc::Global;
use std::marker::Model;

/// A sink that keeps in memory what was written, and fails at the calls of a list. A contract sees it as what
/// was written, that list and the number of the next call.
///
/// Puts are numbered from 0, and the number stands still at 2^64 - 1, where no call fails. A put that fails
/// has written just the bytes that it took, which may be none. The faults are the listed calls that were made.
#[derive(Debug, Drop)]
pub struct MemSink {
    written: CalmSink,
    calls: Calls,
}

impl Model for MemSink {
    ghost use Rattle.store_io.specs.Failing.{MemText, mem_text_code};

    ghost Value = { MemText };

    ghost coded = { mem_text_code };

    ghost view = { λ a. record { written = a.written; failing = a.calls.failing; call = a.calls.next } };
}

impl MemSink {
    /// Nothing is written, and no call is made yet.
    pub fn new(alloc: Global, failing: &[Failing]) -> Result<MemSink, Memory>
        requires { CallsDiffer failing.now }
        ensures { IfOk result (λ sink. sink ≡ record { written = []; failing = failing.now; call = 0 }) }
    {
        Ok(MemSink {
            written: CalmSink::new(alloc),
            calls: Calls::new(alloc, failing)?,
        })
    }

    /// What was written.
    pub fn bytes(&self) -> &[u8]
        ensures { result.now ≡ self.now.written }
    {
        self.written.bytes()
    }
}

impl Sink for MemSink {
    ghost written = { λ sink. Some sink.written };

    ghost faults = { λ sink. failed_before sink.failing sink.call };

    fn put(&mut self, alloc: Global, bytes: &[u8]) -> Result<(), PutFail>
        ensures answer { result ≢ Err PutFail.Memory → result ≡ put_answer (fails_now self.old.failing self.old.call) }
        ensures after { result ≢ Err PutFail.Memory → self.new ≡ after_put self.old bytes.now }
        ensures unwritten { result ≡ Err PutFail.Memory → self.new ≡ after_no_put self.old }
        ensures ok { OnOk result (self.new.written ≡ self.old.written ++ bytes.now) }
        ensures failed { result ≡ Err PutFail.Failed → Rose (failed_before self.old.failing self.old.call) (failed_before self.new.failing self.new.call) }
        ensures part { result ≡ Err PutFail.Failed → GrowsByPart (Some self.old.written) (Some self.new.written) bytes.now }
        ensures later { failed_before self.old.failing self.old.call ≤ failed_before self.new.failing self.new.call }
    {
        let fails = self.calls.make();
        self.written.put(alloc, bytes_taken(bytes, fails))?;
        match fails {
            Some(_) => Err(PutFail::Failed),
            None => Ok(()),
        }
    }
}
