// A store that fails at listed calls.

ghost use Rattle.std.specs.Prelude.{◌≡◌, IfOk};

use sat_base::Memory;
use sqlite_items::Items;
use std::alloc::Global;
use store_io::{Entry, Failing, MemStore, ReadFail, Store};

const FAILING: [Failing; 3] = [
    Failing { call: 1, taken: 3 },
    Failing { call: 4, taken: 0 },
    Failing { call: 2, taken: 99 },
];

fn entry(alloc: Global, name: &[u8], bytes: &[u8]) -> Result<Entry, Memory>
    ensures { IfOk result (λ entry. entry.name ≡ name.now) }
{
    Ok(Entry {
        name: Items::from_slice(alloc, name)?,
        bytes: Items::from_slice(alloc, bytes)?,
    })
}

#[test]
fn fails_at_the_listed_calls(rt: HostRuntime) {
    let alloc = rt.alloc();
    let a = entry(alloc, b"a", b"first").expect(&rt, "there is memory");
    let files = [a];
    let store = MemStore::new(alloc, &files, &FAILING);
    let mut store = store.expect(&rt, "there is memory");
    // Calls 0 to 4, and what the file holds after each.
    for (call, fails, held) in [
        (0, false, "second"),
        (1, true, "sec"),
        (2, true, "second"),
        (3, false, "second"),
        (4, true, ""),
    ] {
        let written = store.write(alloc, "a", b"second");
        assert_eq!(rt; written.is_err(), fails, "at {call}");
        assert!(rt; store.file("a") == Some(held.as_bytes()), "at {call}");
    }
    let read = store.read(alloc, "a", 9);
    assert!(rt; read.is_ok());
}

#[test]
fn reads_are_calls_too(rt: HostRuntime) {
    let alloc = rt.alloc();
    let a = entry(alloc, b"a", b"first").expect(&rt, "there is memory");
    let b = entry(alloc, b"b", b"").expect(&rt, "there is memory");
    let files = [a, b];
    let store = MemStore::new(alloc, &files, &FAILING);
    let mut store = store.expect(&rt, "there is memory");
    assert!(rt; matches!(store.read(alloc, "c", 9), Err(ReadFail::Missing)));
    assert!(rt; matches!(store.read(alloc, "c", 9), Err(ReadFail::Failed)));
    assert!(rt; matches!(store.read(alloc, "a", 9), Err(ReadFail::Failed)));
    let read = store.read(alloc, "a", 1).expect(&rt, "the file is there");
    assert_eq!(rt; read.as_slice(), b"fi".as_slice());
}
