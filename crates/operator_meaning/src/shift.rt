// Shifts by any count.

ghost use Rattle.std.specs.Prelude.{◌≡◌, ◌≤◌, ◌+◌, ◌^◌, pos, ◌*ℤ◌, ◌+ℤ◌, FitsSigned};
ghost use Rattle.std.specs.Int.{w16};
ghost use Rattle.sat_base.specs.Clip.{clip16, clip32};
ghost use Rattle.operator_meaning.specs.Value.{floor, shifted, shifted_back};
ghost use Rattle.operator_meaning.specs.Clipping.{changes16, changes32, shift_clips, shift_back_clips};

use crate::clipped::{Clipped, exact, to_16, to_32};

/// The number times a power of two.
fn multiplied(x: i32, count: u32) -> i64
    requires { count ≤ 32 }
    ensures { result ≡ x *ℤ pos (2 ^ count) }
{
    i64::from(x) << count
}

/// The number over a power of two, rounded down.
fn divided(x: i32, count: u32) -> i32
    ensures { result ≡ floor x (2 ^ count) }
{
    x >> count.min(31)
}

/// The number over a power of two above 1, rounded to the nearest, half way up.
fn divided_to_nearest(x: i32, below: u32) -> i32
    ensures { result ≡ floor (x +ℤ pos (2 ^ below)) (2 ^ (below + 1)) }
{
    if below > 30 {
        return 0;
    }
    ((i64::from(x) + (1 << below)) >> (below + 1)) as i32
}

/// The number times a power of two, clipped to 16 bits.
fn left_16(x: i32, count: u32) -> Clipped
    ensures value { result.value ≡ clip16 (x *ℤ pos (2 ^ count)) }
    ensures clips { result.clips ≡ changes16 (x *ℤ pos (2 ^ count)) }
{
    to_16(multiplied(x, count.min(32)))
}

/// The number times a power of two, clipped to 32 bits.
fn left_32(x: i32, count: u32) -> Clipped
    ensures value { result.value ≡ clip32 (x *ℤ pos (2 ^ count)) }
    ensures clips { result.clips ≡ changes32 (x *ℤ pos (2 ^ count)) }
{
    to_32(multiplied(x, count.min(32)))
}

/// Shifted to the left with a clip to 16 bits; by a negative count, to the right.
pub(crate) fn shifted_16(x: i32, count: i32) -> Clipped
    ensures value { result.value ≡ shifted clip16 x count }
    ensures clips { result.clips ≡ shift_clips changes16 x count }
{
    if count < 0 {
        exact(divided(x, count.unsigned_abs()))
    } else {
        left_16(x, count as u32)
    }
}

/// Shifted to the left with a clip to 32 bits; by a negative count, to the right.
pub(crate) fn shifted_32(x: i32, count: i32) -> Clipped
    ensures value { result.value ≡ shifted clip32 x count }
    ensures clips { result.clips ≡ shift_clips changes32 x count }
{
    if count < 0 {
        exact(divided(x, count.unsigned_abs()))
    } else {
        left_32(x, count as u32)
    }
}

/// Shifted to the right and rounded; by a count that is not positive, to the left with a clip to 16 bits.
pub(crate) fn shifted_back_16(x: i32, count: i32) -> Clipped
    requires { FitsSigned w16 count }
    ensures value { result.value ≡ shifted_back clip16 x count }
    ensures clips { result.clips ≡ shift_back_clips changes16 x count }
{
    if count > 0 {
        exact(divided_to_nearest(x, count as u32 - 1))
    } else {
        left_16(x, count.unsigned_abs())
    }
}

/// Shifted to the right and rounded; by a count that is not positive, to the left with a clip to 32 bits.
pub(crate) fn shifted_back_32(x: i32, count: i32) -> Clipped
    requires { FitsSigned w16 count }
    ensures value { result.value ≡ shifted_back clip32 x count }
    ensures clips { result.clips ≡ shift_back_clips changes32 x count }
{
    if count > 0 {
        exact(divided_to_nearest(x, count as u32 - 1))
    } else {
        left_32(x, count.unsigned_abs())
    }
}
