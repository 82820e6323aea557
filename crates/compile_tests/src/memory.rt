// Runs of the program where memory wants: the test is run with each allocation refused in turn, too.

use sat_base::Memory;
use sat_tool::satc;
use sqlite_items::Items;
use std::alloc::Global;
use store_io::{CalmSink, CalmStore, Entry};

// Whether a build of the text ends in status 3, or in the usual way.
fn ends_in_3_or(alloc: Global, text: &str, usual: u8, told: &str) -> Result<bool, Memory> {
    let file = Entry {
        name: Items::from_slice(alloc, b"a.c")?,
        bytes: Items::from_slice(alloc, text.as_bytes())?,
    };
    let mut store = CalmStore::new(alloc, &[file])?;
    let mut out = CalmSink::new(alloc);
    let mut words = Vec::new(alloc);
    for word in ["build", "a.c", "a.img"] {
        words.push(String::from_str(alloc, word)?)?;
    }
    let status = satc(alloc, &words, &mut store, &mut out);
    if status == 3 {
        return Ok(out.bytes() == b"out of memory\n".as_slice() || out.bytes().is_empty());
    }
    Ok(status == usual && out.bytes() == told.as_bytes())
}

#[test]
fn without_memory_the_status_is_3(rt: HostRuntime) {
    let alloc = rt.alloc();
    let good = "int main(void){sample_out(add(1,2));return 0;}";
    let bad = "int main(void){return 1;}";
    let built = ends_in_3_or(alloc, good, 0, "sites 1\n");
    assert!(rt; matches!(built, Ok(true) | Err(Memory)));
    let refused = ends_in_3_or(alloc, bad, 1, "error 1:1 not yet\n");
    assert!(rt; matches!(refused, Ok(true) | Err(Memory)));
}
