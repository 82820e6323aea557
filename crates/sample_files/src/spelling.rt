// The bytes of samples.

ghost use Rattle.std.specs.Prelude.{◌≡◌, IfOk};
ghost use Rattle.sample_files.specs.Samples.{sample_bytes};

use sat_base::Memory;
use std::alloc::Global;

/// The bytes of these samples, as they stand in a file.
pub fn bytes_of(alloc: Global, samples: &[i16]) -> Result<Vec<u8>, Memory>
    ensures { IfOk result (λ bytes. bytes.items ≡ sample_bytes samples.now) }
{
    let mut bytes = Vec::new(alloc);
    for sample in samples {
        bytes.extend_from_slice(&sample.to_le_bytes())?;
    }
    Ok(bytes)
}
