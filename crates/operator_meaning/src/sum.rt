// Sums, differences, opposites and absolute values, each with a clip.

ghost use Rattle.std.specs.Prelude.{◌≡◌, pos, ◌+ℤ◌, ◌-ℤ◌, unsigned_abs};
ghost use Rattle.std.proofs.Math.IntN.{neg_ℤ};
ghost use Rattle.sat_base.specs.Clip.{clip16, clip32};
ghost use Rattle.operator_meaning.specs.Clipping.{changes16, changes32};

use crate::clipped::{Clipped, to_16, to_32};

/// `add`.
pub(crate) fn sum_16(x: i32, y: i32) -> Clipped
    ensures value { result.value ≡ clip16 (x +ℤ y) }
    ensures clips { result.clips ≡ changes16 (x +ℤ y) }
{
    to_16(i64::from(x) + i64::from(y))
}

/// `sub`.
pub(crate) fn difference_16(x: i32, y: i32) -> Clipped
    ensures value { result.value ≡ clip16 (x -ℤ y) }
    ensures clips { result.clips ≡ changes16 (x -ℤ y) }
{
    to_16(i64::from(x) - i64::from(y))
}

/// `negate`.
pub(crate) fn opposite_16(x: i32) -> Clipped
    ensures value { result.value ≡ clip16 (neg_ℤ x) }
    ensures clips { result.clips ≡ changes16 (neg_ℤ x) }
{
    to_16(-i64::from(x))
}

/// `abs_s`.
pub(crate) fn absolute_16(x: i32) -> Clipped
    ensures value { result.value ≡ clip16 (pos (unsigned_abs x)) }
    ensures clips { result.clips ≡ changes16 (pos (unsigned_abs x)) }
{
    to_16(i64::from(x.unsigned_abs()))
}

/// `L_add`.
pub(crate) fn sum_32(x: i32, y: i32) -> Clipped
    ensures value { result.value ≡ clip32 (x +ℤ y) }
    ensures clips { result.clips ≡ changes32 (x +ℤ y) }
{
    to_32(i64::from(x) + i64::from(y))
}

/// `L_sub`.
pub(crate) fn difference_32(x: i32, y: i32) -> Clipped
    ensures value { result.value ≡ clip32 (x -ℤ y) }
    ensures clips { result.clips ≡ changes32 (x -ℤ y) }
{
    to_32(i64::from(x) - i64::from(y))
}

/// `L_negate`.
pub(crate) fn opposite_32(x: i32) -> Clipped
    ensures value { result.value ≡ clip32 (neg_ℤ x) }
    ensures clips { result.clips ≡ changes32 (neg_ℤ x) }
{
    to_32(-i64::from(x))
}

/// `L_abs`.
pub(crate) fn absolute_32(x: i32) -> Clipped
    ensures value { result.value ≡ clip32 (pos (unsigned_abs x)) }
    ensures clips { result.clips ≡ changes32 (pos (unsigned_abs x)) }
{
    to_32(i64::from(x.unsigned_abs()))
}
