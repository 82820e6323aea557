// A sink that fails at listed puts.

use store_io::{Failing, MemSink, Sink};

#[test]
fn fails_at_the_listed_puts(rt: HostRuntime) {
    let alloc = rt.alloc();
    let failing = [
        Failing { call: 1, taken: 2 },
        Failing { call: 2, taken: 9 },
        Failing {
            call: u64::MAX,
            taken: 0,
        },
    ];
    let sink = MemSink::new(alloc, &failing);
    let mut sink = sink.expect(&rt, "there is memory");
    for (call, fails, written) in [
        (0, false, "abc"),
        (1, true, "abcab"),
        (2, true, "abcababc"),
        (3, false, "abcababcabc"),
    ] {
        assert_eq!(rt; sink.put(alloc, b"abc").is_err(), fails, "at {call}");
        assert_eq!(rt; sink.bytes(), written.as_bytes(), "at {call}");
    }
}
