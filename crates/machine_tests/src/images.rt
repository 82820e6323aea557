// Images, byte by byte.

use image_format::{Image, SiteEntry, write_bytes};
use sqlite_items::Items;
use std::test::Fail;

#[test]
fn an_image_is_spelled(rt: HostRuntime) -> Result<(), Fail> {
    let alloc = rt.alloc();
    let entry = SiteEntry {
        first: 1,
        line: 0x0203,
        col: 4,
        bound: 0x0506_0708,
        words: 0x090a,
        kind: 11,
        form: 2,
        guard: 1,
        operands: 3,
        result: 15,
        reg_a: 16,
        reg_b: 17,
        reg_c: 18,
    };
    let image = Image {
        code: Items::from_slice(alloc, &[0x0050_0093, 0x73])?,
        memory: Items::from_slice(alloc, &[1, 2, 3, 4])?,
        sites: Items::from_slice(alloc, &[entry])?,
    };
    let bytes = write_bytes(alloc, &image)?;
    let header: &[u8] = &[
        b'S', b'A', b'T', b'I', 1, 0, 0, 0, 2, 0, 0, 0, 4, 0, 0, 0, 1, 0, 0, 0,
    ];
    let content: &[u8] = &[0x93, 0, 0x50, 0, 0x73, 0, 0, 0, 1, 2, 3, 4];
    let site: &[u8] = &[
        1, 0, 0, 0, 3, 2, 0, 0, 4, 0, 0, 0, 8, 7, 6, 5, 0x0a, 9, 11, 2, 1, 3, 15, 16, 17, 18, 0, 0,
    ];
    assert_eq!(rt; &bytes[..20], header);
    assert_eq!(rt; &bytes[20..32], content);
    assert_eq!(rt; &bytes[32..], site);
    Ok(())
}
