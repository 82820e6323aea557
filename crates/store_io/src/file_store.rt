// The files of the system as a store.

ghost use Rattle.std.specs.Prelude.{◌≡◌, ◌≢◌, ◌+◌, ◌-◌, ◌^◌, ◌≤◌, ◌↔◌, None, min, length, IfOk, OnOk, OnErr};
ghost use Rattle.std.specs.IoError.{error_kind};

use crate::store::{ReadFail, Store, WriteFail};
use crate::stream::{read_up_to, write_whole};
use std::alloc::Global;
use std::io::ErrorKind;
use std::rt::Files;
use std::{fs, io};

/// The files of the system. It tells nothing of what they hold, since other programs may write them too.
///
/// Each error of the system is a fault, a missing file among them. Want of memory is none.
#[derive(Drop)]
pub struct FileStore<R> {
    rt: R,
    faults: u64,
}

impl<R> FileStore<R> {
    /// The store of the files that `rt` reaches, with no fault yet.
    pub fn new(rt: R) -> FileStore<R>
        ensures { result ≡ record { rt = rt; faults = 0 } }
    {
        FileStore { rt, faults: 0 }
    }

    /// How often the system failed.
    pub fn faults(&self) -> u64
        ensures { result ≡ self.now.faults }
    {
        self.faults
    }

    fn count_fault(&mut self)
        ensures count { self.new.faults ≡ min (self.old.faults + 1) (2 ^ 64 - 1) }
        ensures later { self.old.faults ≤ self.new.faults }
    {
        self.faults = self.faults.saturating_add(1);
    }

    // Why a read failed. Only want of memory is no fault.
    fn read_fail(&mut self, error: &io::Error) -> ReadFail
        ensures missing { (result ≡ ReadFail.Missing) ↔ (error_kind error.now ≡ ErrorKind.NotFound) }
        ensures memory { (result ≡ ReadFail.Memory) ↔ (error_kind error.now ≡ ErrorKind.OutOfMemory) }
        ensures calm { result ≡ ReadFail.Memory → self.new.faults ≡ self.old.faults }
        ensures fault { result ≢ ReadFail.Memory → self.new.faults ≡ min (self.old.faults + 1) (2 ^ 64 - 1) }
        ensures later { self.old.faults ≤ self.new.faults }
    {
        match error.kind() {
            ErrorKind::OutOfMemory => ReadFail::Memory,
            ErrorKind::NotFound => {
                self.count_fault();
                ReadFail::Missing
            }
            _ => {
                self.count_fault();
                ReadFail::Failed
            }
        }
    }
}

impl<R: Files> Store for FileStore<R> {
    ghost files = { λ _. None };

    ghost faults = { λ store. store.faults };

    /// An error of the system is `Missing` where there is no such file, and else `Failed`. Either counts one
    /// fault, and no other answer counts any.
    fn read(&mut self, alloc: Global, name: &str, most: u64) -> Result<Vec<u8>, ReadFail>
        ensures bytes { IfOk result (λ bytes. length bytes.items ≤ most + 1) }
        ensures calm { OnOk result (self.new.faults ≡ self.old.faults) }
        ensures memory { result ≡ Err ReadFail.Memory → self.new.faults ≡ self.old.faults }
        ensures missing { result ≡ Err ReadFail.Missing → self.new.faults ≡ min (self.old.faults + 1) (2 ^ 64 - 1) }
        ensures failed { result ≡ Err ReadFail.Failed → self.new.faults ≡ min (self.old.faults + 1) (2 ^ 64 - 1) }
        ensures later { self.old.faults ≤ self.new.faults }
    {
        match read_file(&self.rt, alloc, name, most) {
            Ok(bytes) => Ok(bytes),
            Err(error) => Err(self.read_fail(&error)),
        }
    }

    /// Each error of the system counts one fault. It may come when the file is cut short already, so that the
    /// system's want of memory is a failure too.
    fn write(&mut self, _alloc: Global, name: &str, bytes: &[u8]) -> Result<(), WriteFail>
        ensures ok { OnOk result (self.new.faults ≡ self.old.faults) }
        ensures failed { OnErr result (self.new.faults ≡ min (self.old.faults + 1) (2 ^ 64 - 1)) }
        ensures memory { result ≢ Err WriteFail.Memory }
        ensures later { self.old.faults ≤ self.new.faults }
    {
        match write_file(&self.rt, name, bytes) {
            Ok(()) => Ok(()),
            Err(_) => {
                self.count_fault();
                Err(WriteFail::Failed)
            }
        }
    }
}

fn read_file<R: Files>(rt: &R, alloc: Global, name: &str, most: u64) -> io::Result<Vec<u8>>
    ensures { IfOk result (λ bytes. length bytes.items ≤ most + 1) }
{
    let mut file = fs::open(rt, name)?;
    read_up_to(alloc, &mut file, most)
}

fn write_file<R: Files>(rt: &R, name: &str, bytes: &[u8]) -> io::Result<()> {
    let mut file = fs::create(rt, name)?;
    write_whole(&mut file, bytes)
}
