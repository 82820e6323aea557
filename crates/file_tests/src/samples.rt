// Sample files.

use sample_files::{SampleRefusal, bytes_of, samples};
use std::test::Fail;

const SAMPLES: [i16; 6] = [0, 1, -1, 255, 32767, -32768];

const BYTES: [u8; 12] = [0, 0, 1, 0, 255, 255, 255, 0, 255, 127, 0, 128];

#[test]
fn samples_are_read_and_written_again(rt: HostRuntime) -> Result<(), Fail> {
    assert_eq!(rt; samples(rt.alloc(), &BYTES)?.as_slice(), SAMPLES.as_slice());
    assert_eq!(rt;
        bytes_of(rt.alloc(), &SAMPLES)?.as_slice(),
        BYTES.as_slice()
    );
    assert_eq!(rt; samples(rt.alloc(), &[])?.len(), 0);
    Ok(())
}

#[test]
fn half_a_sample_is_refused(rt: HostRuntime) {
    assert_eq!(rt;
        samples(rt.alloc(), &BYTES[..11]).err(),
        Some(SampleRefusal::OddLength)
    );
}

#[test]
fn more_than_16777216_bytes_are_too_many(rt: HostRuntime) -> Result<(), Fail> {
    let mut bytes = vec![in rt.alloc(); 0; 16_777_216]?;
    assert_eq!(rt; samples(rt.alloc(), bytes.as_slice())?.len(), 8_388_608);
    bytes.push(0)?;
    assert_eq!(rt;
        samples(rt.alloc(), bytes.as_slice()).err(),
        Some(SampleRefusal::TooLong)
    );
    bytes.push(0)?;
    assert_eq!(rt;
        samples(rt.alloc(), bytes.as_slice()).err(),
        Some(SampleRefusal::TooLong)
    );
    Ok(())
}
