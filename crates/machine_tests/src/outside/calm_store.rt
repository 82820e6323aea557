// A store and a sink that never fail.

use sqlite_items::Items;
use std::alloc::Global;
use store_io::{CalmSink, CalmStore, Entry, ReadFail, Sink, Store};

// Copies a file to another name and to a sink.
fn copy<S: Store, T: Sink>(alloc: Global, store: &mut S, sink: &mut T) -> bool {
    let Ok(bytes) = store.read(alloc, "from", 99) else {
        return false;
    };
    store.write(alloc, "to", bytes.as_slice()).is_ok() && sink.put(alloc, bytes.as_slice()).is_ok()
}

#[test]
fn keeps_what_is_written(rt: HostRuntime) {
    let alloc = rt.alloc();
    let entry = Entry {
        name: Items::from_slice(alloc, b"from").expect(&rt, "there is memory"),
        bytes: Items::from_slice(alloc, b"some bytes").expect(&rt, "there is memory"),
    };
    let mut store = CalmStore::new(alloc, &[entry]).expect(&rt, "there is memory");
    let mut sink = CalmSink::new(alloc);
    assert!(rt; store.file("to").is_none());
    assert!(rt; copy(alloc, &mut store, &mut sink));
    assert!(rt; copy(alloc, &mut store, &mut sink));
    assert!(rt; store.file("to") == Some(&b"some bytes"[..]));
    assert_eq!(rt; sink.bytes(), b"some bytessome bytes".as_slice());
    assert!(rt; matches!(store.read(alloc, "none", 0), Err(ReadFail::Missing)));
}
