// Why bytes are no samples.

use std::alloc::AllocError;
use thiserror::Error;

/// Why bytes are no samples.
#[derive(Clone, Copy, Debug, PartialEq, Eq, Error)]
pub enum SampleRefusal {
    /// There are more bytes than a sample file may have.
    #[error("too many bytes of samples")]
    TooLong,
    /// The number of bytes is odd.
    #[error("half a sample at the end")]
    OddLength,
    /// Want of memory.
    #[error("out of memory")]
    Memory,
}

impl From<AllocError> for SampleRefusal {
    ghost use Rattle.std.specs.Prelude.{◌≡◌};
    ghost use Rattle.sample_files.specs.declared.refusal.SampleRefusal.TheVariants.{Memory};

    ghost from_gives = { λ _ refusal. refusal ≡ Memory };

    fn from(_error: AllocError) -> SampleRefusal {
        SampleRefusal::Memory
    }
}
