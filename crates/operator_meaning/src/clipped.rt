// A number on the way through an operator's clips.

ghost use Rattle.std.specs.Prelude.{◌≡◌, false};
ghost use Rattle.sat_base.specs.Clip.{clip16, clip32};
ghost use Rattle.operator_meaning.specs.Clipping.{changes16, changes32};

use sat_base::{clip16, clip32};

/// A number, and whether a clip on the way to it changed one.
#[derive(Clone, Copy)]
pub(crate) struct Clipped {
    pub(crate) value: i32,
    pub(crate) clips: bool,
}

/// The number clipped to 16 bits.
pub(crate) fn to_16(x: i64) -> Clipped
    ensures value { result.value ≡ clip16 x }
    ensures clips { result.clips ≡ changes16 x }
{
    let value = clip16(x);
    Clipped {
        value,
        clips: i64::from(value) != x,
    }
}

/// The number clipped to 32 bits.
pub(crate) fn to_32(x: i64) -> Clipped
    ensures value { result.value ≡ clip32 x }
    ensures clips { result.clips ≡ changes32 x }
{
    let value = clip32(x);
    Clipped {
        value,
        clips: i64::from(value) != x,
    }
}

/// The number itself.
pub(crate) fn exact(value: i32) -> Clipped
    ensures value { result.value ≡ value }
    ensures clips { result.clips ≡ false }
{
    Clipped {
        value,
        clips: false,
    }
}
