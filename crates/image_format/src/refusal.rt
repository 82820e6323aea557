// Why bytes are no image.

use sat_base::Memory;
use std::alloc::{AllocError, AllocFailed};
use thiserror::Error;

/// Why bytes are no image. A place is counted in bytes from 0.
#[derive(Clone, Copy, Debug, PartialEq, Eq, Error)]
pub enum ImageRefusal {
    /// The bytes end here, before the end of what they have to hold.
    #[error("the image ends at {at}")]
    Short { at: u32 },
    /// The bytes do not begin as an image.
    #[error("no image")]
    Magic,
    /// The format has no such version.
    #[error("version {0}")]
    Version(u32),
    /// The number at this place breaks a rule of the format.
    #[error("a wrong number at {at}")]
    Shape { at: u32 },
    /// The image ends here, and bytes follow.
    #[error("the image goes on at {at}")]
    Extra { at: u32 },
    /// Want of memory.
    #[error("out of memory")]
    Memory,
}

impl From<Memory> for ImageRefusal {
    ghost use Rattle.std.specs.Prelude.{◌≡◌};
    ghost use Rattle.image_format.specs.declared.refusal.ImageRefusal.TheVariants.{Memory};

    ghost from_gives = { λ _ refusal. refusal ≡ Memory };

    fn from(_error: Memory) -> ImageRefusal {
        ImageRefusal::Memory
    }
}

impl From<AllocError> for ImageRefusal {
    ghost use Rattle.std.specs.Prelude.{◌≡◌};
    ghost use Rattle.image_format.specs.declared.refusal.ImageRefusal.TheVariants.{Memory};

    ghost from_gives = { λ _ refusal. refusal ≡ Memory };

    fn from(_error: AllocError) -> ImageRefusal {
        ImageRefusal::Memory
    }
}

impl<T: Drop> From<AllocFailed<T>> for ImageRefusal {
    ghost use Rattle.std.specs.Prelude.{◌≡◌};
    ghost use Rattle.image_format.specs.declared.refusal.ImageRefusal.TheVariants.{Memory};

    ghost from_gives = { λ _ refusal. refusal ≡ Memory };

    fn from(_error: AllocFailed<T>) -> ImageRefusal {
        ImageRefusal::Memory
    }
}
