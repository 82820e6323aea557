// Image files, whole and damaged.

use image_format::{Image, ImageRefusal, SiteEntry, read_bytes, write_bytes};
use sqlite_items::Items;
use std::alloc::{AllocError, Global};
use std::test::Fail;

/// One word of code (`ecall`), four bytes of data memory and one site.
#[rattlefmt::skip]
const IMAGE: [u8; 56] = [
    b'S', b'A', b'T', b'I', 1, 0, 0, 0, 1, 0, 0, 0, 4, 0, 0, 0, 1, 0, 0, 0, // the beginning
    0x73, 0, 0, 0, // the code
    9, 8, 7, 6, // the data memory
    0, 0, 0, 0, 3, 0, 0, 0, 5, 1, 0, 0, 0, 0, 0, 0, 1, 0, 0, 2, 1, 2, 8, 11, 12, 0, 0, 0, // the entry
];

const ENTRY: SiteEntry = SiteEntry {
    first: 0,
    line: 3,
    col: 261,
    bound: 0,
    words: 1,
    kind: 0,
    form: 2,
    guard: 1,
    operands: 2,
    result: 8,
    reg_a: 11,
    reg_b: 12,
    reg_c: 0,
};

/// A byte of the image, what it becomes, and what is told then.
const DAMAGES: [(usize, u8, ImageRefusal); 31] = [
    (0, b'T', ImageRefusal::Magic),
    (3, b'J', ImageRefusal::Magic),
    (4, 0, ImageRefusal::Version(0)),
    (4, 2, ImageRefusal::Version(2)),
    (7, 1, ImageRefusal::Version(16_777_217)),
    (11, 1, ImageRefusal::Shape { at: 8 }),
    (12, 6, ImageRefusal::Shape { at: 12 }),
    (15, 1, ImageRefusal::Shape { at: 12 }),
    (18, 2, ImageRefusal::Shape { at: 16 }),
    (8, 2, ImageRefusal::Short { at: 56 }),
    (8, 0, ImageRefusal::Extra { at: 52 }),
    (12, 8, ImageRefusal::Short { at: 56 }),
    (12, 0, ImageRefusal::Extra { at: 52 }),
    (16, 2, ImageRefusal::Short { at: 56 }),
    (16, 0, ImageRefusal::Extra { at: 28 }),
    (28, 1, ImageRefusal::Shape { at: 28 }),
    (31, 255, ImageRefusal::Shape { at: 28 }),
    (44, 2, ImageRefusal::Shape { at: 28 }),
    (43, 128, ImageRefusal::Shape { at: 40 }),
    (46, 37, ImageRefusal::Shape { at: 46 }),
    (47, 3, ImageRefusal::Shape { at: 47 }),
    (48, 2, ImageRefusal::Shape { at: 48 }),
    (49, 4, ImageRefusal::Shape { at: 49 }),
    (50, 32, ImageRefusal::Shape { at: 50 }),
    (51, 32, ImageRefusal::Shape { at: 51 }),
    (49, 0, ImageRefusal::Shape { at: 51 }),
    (52, 32, ImageRefusal::Shape { at: 52 }),
    (49, 1, ImageRefusal::Shape { at: 52 }),
    (53, 1, ImageRefusal::Shape { at: 53 }),
    (54, 1, ImageRefusal::Shape { at: 54 }),
    (55, 1, ImageRefusal::Shape { at: 55 }),
];

/// What is told of the bytes.
fn told(alloc: Global, bytes: &[u8]) -> Option<ImageRefusal> {
    read_bytes(alloc, bytes).err()
}

#[test]
fn an_image_is_read_and_written_again(rt: HostRuntime) -> Result<(), Fail> {
    let image = read_bytes(rt.alloc(), &IMAGE)?;
    assert_eq!(rt; image.code.as_slice(), [0x73].as_slice());
    assert_eq!(rt; image.memory.as_slice(), [9, 8, 7, 6].as_slice());
    assert_eq!(rt; image.sites.as_slice(), [ENTRY].as_slice());
    let bytes = write_bytes(rt.alloc(), &image)?;
    assert_eq!(rt; bytes.as_slice(), IMAGE.as_slice());
    Ok(())
}

#[test]
fn an_image_cut_short_is_told_at_its_length(rt: HostRuntime) {
    for len in 0..IMAGE.len() {
        assert_eq!(rt;
            told(rt.alloc(), &IMAGE[..len]),
            Some(ImageRefusal::Short { at: len as u32 })
        );
    }
}

#[test]
fn bytes_after_an_image_are_told_at_its_end(rt: HostRuntime) -> Result<(), Fail> {
    let mut bytes = IMAGE.to_vec(rt.alloc())?;
    bytes.push(0)?;
    assert_eq!(rt;
        told(rt.alloc(), bytes.as_slice()),
        Some(ImageRefusal::Extra { at: 56 })
    );
    Ok(())
}

#[test]
fn each_rule_is_told_at_its_place(rt: HostRuntime) {
    for (place, byte, refusal) in DAMAGES {
        let mut bytes = IMAGE;
        if let Some(old) = bytes.get_mut(place) {
            *old = byte;
        }
        assert_eq!(rt; told(rt.alloc(), &bytes), Some(refusal));
    }
}

/// An image of code that has one entry for all of it.
fn image_of(alloc: Global, words: u16) -> Result<Image, AllocError> {
    let mut code = Items::new(alloc);
    for _ in 0..words {
        code.push(0)?;
    }
    let entry = SiteEntry { words, ..ENTRY };
    Ok(Image {
        code,
        memory: Items::new(alloc),
        sites: Items::from_slice(alloc, &[entry])?,
    })
}

#[test]
fn an_entry_has_at_most_96_words(rt: HostRuntime) -> Result<(), Fail> {
    let longest = write_bytes(rt.alloc(), &image_of(rt.alloc(), 96)?)?;
    assert_eq!(rt; told(rt.alloc(), longest.as_slice()), None);
    let longer = write_bytes(rt.alloc(), &image_of(rt.alloc(), 97)?)?;
    assert_eq!(rt;
        told(rt.alloc(), longer.as_slice()),
        Some(ImageRefusal::Shape { at: 424 })
    );
    Ok(())
}
