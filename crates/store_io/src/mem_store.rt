// A store of files that is kept in memory and fails by a list, for tests of failure.

ghost use Rattle.std.specs.Prelude.{◌≡◌, ◌≢◌, ◌≤◌, Some, IsSome, MatchResult, IfOk, OnOk};
ghost use Rattle.std.specs.Option.{option_copied};
ghost use Rattle.std.specs.FinMap as map;
ghost use Rattle.store_io.specs.Entries.{NamesDiffer, files_of};
ghost use Rattle.store_io.specs.Failing.{CallsDiffer, fails_now, failed_before, read_of, write_answer, after_call, after_write};
ghost use Rattle.store_io.specs.Outside.{Rose, ReadsFile, WritesPart};

use crate::calm_store::CalmStore;
use crate::entry::Entry;
use crate::failing::{Calls, Failing, bytes_taken};
use crate::store::{ReadFail, Store, WriteFail};
use sat_base::Memory;
use std::alloc::Global;
use std::marker::Model;

/// A store that keeps its files in memory, and fails at the calls of a list. A contract sees it as its files,
/// that list and the number of the next call.
///
/// Reads and writes together are numbered from 0, and the number stands still at 2^64 - 1, where no call
/// fails. A read that fails leaves the files. A write that fails leaves under its name just the bytes that it
/// took, which may be none. The faults are the listed calls that were made.
#[derive(Debug, Drop)]
pub struct MemStore {
    files: CalmStore,
    calls: Calls,
}

impl Model for MemStore {
    ghost use Rattle.store_io.specs.Failing.{MemFiles, mem_files_code};

    ghost Value = { MemFiles };

    ghost coded = { mem_files_code };

    ghost view = { λ a. record { files = a.files; failing = a.calls.failing; call = a.calls.next } };
}

impl MemStore {
    /// Holds just these files, and no call is made yet.
    pub fn new(alloc: Global, files: &[Entry], failing: &[Failing]) -> Result<MemStore, Memory>
        requires names { NamesDiffer files.now }
        requires calls { CallsDiffer failing.now }
        ensures { IfOk result (λ store. store ≡ record { files = files_of files.now; failing = failing.now; call = 0 }) }
    {
        Ok(MemStore {
            files: CalmStore::new(alloc, files)?,
            calls: Calls::new(alloc, failing)?,
        })
    }

    /// The bytes of a file, or `None` where there is none of that name. It is no call that fails.
    pub fn file(&self, name: &str) -> Option<&[u8]>
        ensures { option_copied result ≡ map.get self.now.files name.now }
    {
        self.files.file(name)
    }
}

impl Store for MemStore {
    ghost files = { λ store. Some store.files };

    ghost faults = { λ store. failed_before store.failing store.call };

    fn read(&mut self, alloc: Global, name: &str, most: u64) -> Result<Vec<u8>, ReadFail>
        ensures answer { MatchResult result
            (λ bytes. read_of self.old name.now most ≡ Ok bytes.items)
            (λ fail. fail ≢ ReadFail.Memory → read_of self.old name.now most ≡ Err fail) }
        ensures fails { IsSome (fails_now self.old.failing self.old.call) → result ≡ Err ReadFail.Failed }
        ensures after { self.new ≡ after_call self.old }
        ensures bytes { IfOk result (λ bytes. ReadsFile (Some self.old.files) name.now most bytes.items) }
        ensures missing { result ≡ Err ReadFail.Missing → map.get self.old.files name.now ≡ None }
        ensures failed { result ≡ Err ReadFail.Failed → Rose (failed_before self.old.failing self.old.call) (failed_before self.new.failing self.new.call) }
        ensures later { failed_before self.old.failing self.old.call ≤ failed_before self.new.failing self.new.call }
    {
        match self.calls.make() {
            Some(_) => Err(ReadFail::Failed),
            None => self.files.read(alloc, name, most),
        }
    }

    fn write(&mut self, alloc: Global, name: &str, bytes: &[u8]) -> Result<(), WriteFail>
        ensures answer { result ≢ Err WriteFail.Memory → result ≡ write_answer (fails_now self.old.failing self.old.call) }
        ensures after { result ≢ Err WriteFail.Memory → self.new ≡ after_write self.old name.now bytes.now }
        ensures unwritten { result ≡ Err WriteFail.Memory → self.new ≡ after_call self.old }
        ensures ok { OnOk result (self.new.files ≡ map.insert self.old.files name.now bytes.now) }
        ensures failed { result ≡ Err WriteFail.Failed → Rose (failed_before self.old.failing self.old.call) (failed_before self.new.failing self.new.call) }
        ensures part { result ≡ Err WriteFail.Failed → WritesPart (Some self.old.files) (Some self.new.files) name.now bytes.now }
        ensures later { failed_before self.old.failing self.old.call ≤ failed_before self.new.failing self.new.call }
    {
        let fails = self.calls.make();
        self.files.write(alloc, name, bytes_taken(bytes, fails))?;
        match fails {
            Some(_) => Err(WriteFail::Failed),
            None => Ok(()),
        }
    }
}
