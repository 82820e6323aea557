// The files of the system.

use std::fs;
use store_io::{FileStore, ReadFail, Store, WriteFail};

#[test]
fn reads_what_was_written(rt: HostRuntime) {
    let name = "store_io-file_store.bin";
    let mut store = FileStore::new(&rt);
    assert!(rt; store.write(rt.alloc(), name, b"three lines").is_ok());
    assert!(rt; store.write(rt.alloc(), name, b"one line").is_ok());
    for (most, want) in [(0u64, 1usize), (6, 7), (7, 8), (u64::MAX, 8)] {
        let read = store.read(rt.alloc(), name, most);
        let bytes = read.expect(&rt, "the file is there");
        assert_eq!(rt; bytes.as_slice(), &b"one line"[..want], "at {most}");
    }
    assert!(rt; fs::remove_file(&rt, name).is_ok());
    let missing = store.read(rt.alloc(), name, 9);
    assert!(rt; matches!(missing, Err(ReadFail::Missing)));
    assert_eq!(rt; store.faults(), 1);
}

#[test]
fn fails_on_a_folder(rt: HostRuntime) {
    let mut store = FileStore::new(&rt);
    assert!(rt; matches!(store.read(rt.alloc(), ".", 9), Err(ReadFail::Failed)));
    assert!(rt; matches!(store.write(rt.alloc(), ".", b""), Err(WriteFail::Failed)));
    assert_eq!(rt; store.faults(), 2);
}
