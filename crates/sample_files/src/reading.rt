// The samples that the bytes of a file spell.

ghost use Rattle.std.specs.Prelude.{◌≡◌, IfOk};
ghost use Rattle.sample_files.specs.Samples.{samples_in};
ghost use Rattle.sample_files.specs.Reading.{IsAnswerTo, IsReadFrom, HaveSixteenBits};

use crate::refusal::SampleRefusal;
use sat_base::limits::SAMPLE_BYTES;
use std::alloc::{AllocError, Global};

/// The samples that these bytes spell. More bytes than a sample file may have are refused as too long, whether or not
/// their number is odd; else an odd number of them is refused as such.
pub fn samples(alloc: Global, bytes: &[u8]) -> Result<Vec<i16>, SampleRefusal>
    ensures answer { IsAnswerTo bytes.now result }
    ensures read { IsReadFrom bytes.now result }
    ensures wide { IfOk result (λ samples. HaveSixteenBits samples.items) }
{
    if bytes.len() > SAMPLE_BYTES {
        return Err(SampleRefusal::TooLong);
    }
    if bytes.len() % 2 != 0 {
        return Err(SampleRefusal::OddLength);
    }
    Ok(samples_in(alloc, bytes)?)
}

fn samples_in(alloc: Global, bytes: &[u8]) -> Result<Vec<i16>, AllocError>
    ensures { IfOk result (λ samples. samples.items ≡ samples_in bytes.now) }
{
    let (pairs, _rest) = bytes.as_chunks::<2>();
    pairs
        .iter()
        .map(|pair| i16::from_le_bytes(*pair))
        .collect(alloc)
}
