// A store of files that is kept in memory and never fails.

ghost use Rattle.std.specs.Prelude.{◌≡◌, ◌+◌, Some, take, IfOk, OnOk, OnErr};
ghost use Rattle.std.specs.Option.{option_copied};
ghost use Rattle.std.specs.FinMap as map;
ghost use Rattle.store_io.specs.Entries.{NamesDiffer, files_of};

use crate::entry::Entry;
use crate::store::{ReadFail, Store, WriteFail};
use sat_base::Memory;
use std::alloc::Global;
use std::collections::BTreeMap;
use std::marker::Model;

/// A store that keeps its files in memory and never fails. A contract sees it as its files.
#[derive(Debug, Drop)]
pub struct CalmStore {
    files: BTreeMap<Vec<u8>, Vec<u8>>,
}

impl Model for CalmStore {
    ghost use Rattle.std.specs.Coded.{coded_list, coded_ℕ};
    ghost use Rattle.std.specs.FinMap as map;
    ghost use Rattle.store_io.specs.Outside.{Files};
    ghost use Rattle.store_io.specs.Held.{held_files};

    ghost Value = { Files };

    ghost coded = { map.code (coded_list coded_ℕ) (coded_list coded_ℕ) };

    ghost view = { λ a. held_files a.files.entries };
}

impl CalmStore {
    /// Holds just these files.
    pub fn new(alloc: Global, files: &[Entry]) -> Result<CalmStore, Memory>
        requires { NamesDiffer files.now }
        ensures { IfOk result (λ store. store ≡ files_of files.now) }
    {
        let mut store = CalmStore::empty(alloc);
        for file in files {
            store.set(alloc, file.name.as_slice(), file.bytes.as_slice())?;
        }
        Ok(store)
    }

    fn empty(alloc: Global) -> CalmStore
        ensures { result ≡ map.empty }
    {
        CalmStore {
            files: BTreeMap::new(alloc),
        }
    }

    /// The bytes of a file, or `None` where there is none of that name.
    pub fn file(&self, name: &str) -> Option<&[u8]>
        ensures { option_copied result ≡ map.get self.now name.now }
    {
        let bytes = self.files.get(name.as_bytes())?;
        Some(bytes.as_slice())
    }

    // Both copies are made first, so that want of memory leaves the files as they were.
    fn set(&mut self, alloc: Global, name: &[u8], bytes: &[u8]) -> Result<(), Memory>
        ensures ok { OnOk result (self.new ≡ map.insert self.old name.now bytes.now) }
        ensures err { OnErr result (self.new ≡ self.old) }
    {
        let name = Vec::from_slice(alloc, name)?;
        let bytes = Vec::from_slice(alloc, bytes)?;
        self.files.insert(name, bytes)?;
        Ok(())
    }
}

impl Store for CalmStore {
    ghost files = { λ store. Some store };

    ghost faults = { λ _. 0 };

    fn read(&mut self, alloc: Global, name: &str, most: u64) -> Result<Vec<u8>, ReadFail> {
        let Some(bytes) = self.file(name) else {
            return Err(ReadFail::Missing);
        };
        Vec::from_slice(alloc, up_to(bytes, most)).map_err(|_| ReadFail::Memory)
    }

    fn write(&mut self, alloc: Global, name: &str, bytes: &[u8]) -> Result<(), WriteFail> {
        self.set(alloc, name.as_bytes(), bytes)
            .map_err(|_| WriteFail::Memory)
    }
}

// The first `most + 1` bytes, or all where there are fewer.
fn up_to(bytes: &[u8], most: u64) -> &[u8]
    ensures { result.now ≡ take (most + 1) bytes.now }
{
    if bytes.len() as u64 <= most {
        bytes
    } else {
        &bytes[..most as usize + 1]
    }
}
