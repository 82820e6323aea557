// The clips at the ends of their ranges.

use sat_base::{clip16, clip32, low16};

#[test]
fn clips_at_the_ends(rt: HostRuntime) {
    for (x, short, long) in [
        (0, 0, 0),
        (32_767, 32_767, 32_767),
        (32_768, 32_767, 32_768),
        (-32_768, -32_768, -32_768),
        (-32_769, -32_768, -32_769),
        (2_147_483_648, 32_767, 2_147_483_647),
        (-2_147_483_649, -32_768, -2_147_483_648),
    ] {
        assert_eq!(rt; clip16(x), short, "at {x}");
        assert_eq!(rt; clip32(x), long, "at {x}");
    }
}

#[test]
fn keeps_the_low_bits(rt: HostRuntime) {
    for (x, low) in [
        (0, 0),
        (32_767, 32_767),
        (32_768, -32_768),
        (65_535, -1),
        (65_536, 0),
        (-1, -1),
        (-32_769, 32_767),
        (i32::MIN, 0),
        (i32::MAX, -1),
    ] {
        assert_eq!(rt; low16(x), low, "at {x}");
    }
}
