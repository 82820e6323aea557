// Standard output.

use store_io::{Sink, StdSink};

#[test]
fn puts_to_standard_output(rt: HostRuntime) {
    let mut sink = StdSink::new(&rt);
    assert!(rt; sink.put(rt.alloc(), b"a line from a test\n").is_ok());
    assert!(rt; sink.put(rt.alloc(), b"").is_ok());
    assert_eq!(rt; sink.faults(), 0);
}
