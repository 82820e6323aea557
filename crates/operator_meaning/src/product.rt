// Products, their sums, and rounding to the upper 16 bits.

ghost use Rattle.std.specs.Prelude.{◌≡◌, ◌^◌, pos, ◌*ℤ◌, ◌+ℤ◌, ◌≤ℤ◌, ◌||◌, FitsSigned};
ghost use Rattle.std.specs.Int.{w16};
ghost use Rattle.sat_base.specs.Clip.{clip16, clip32};
ghost use Rattle.operator_meaning.specs.Value.{floor, product_of, rounded, accumulated, reduced};
ghost use Rattle.operator_meaning.specs.Clipping.{changes16, changes32, rounding_clips, accumulation_clips, reduction_clips};

use crate::clipped::{Clipped, to_16, to_32};
use crate::sum::{difference_32, sum_32};

/// The upper 16 bits.
#[tactic(auto, using(crate::proofs::Shifts::floor_is))]
pub(crate) fn upper(x: i32) -> i32
    ensures { result ≡ floor x 65536 }
{
    x >> 16
}

/// The product without its lower 15 bits, rounded down.
#[tactic(auto, using(crate::proofs::Shifts::floor_is))]
fn fraction(product: i32) -> i32
    ensures { result ≡ floor product (2 ^ 15) }
{
    product >> 15
}

/// The product of two numbers of 16 bits.
fn product(a: i32, b: i32) -> i32
    requires first { FitsSigned w16 a }
    requires second { FitsSigned w16 b }
    ensures value { result ≡ a *ℤ b }
    ensures bound { result ≤ℤ pos 1073741824 }
{
    a * b
}

/// `mult`.
#[tactic(auto, using(crate::proofs::Products::in_range))]
pub(crate) fn mult(a: i32, b: i32) -> Clipped
    requires first { FitsSigned w16 a }
    requires second { FitsSigned w16 b }
    ensures value { result.value ≡ clip16 (floor (a *ℤ b) (2 ^ 15)) }
    ensures clips { result.clips ≡ changes16 (floor (a *ℤ b) (2 ^ 15)) }
{
    to_16(i64::from(fraction(product(a, b))))
}

/// `mult_r`.
#[tactic(auto, using(crate::proofs::Products::in_range))]
pub(crate) fn mult_r(a: i32, b: i32) -> Clipped
    requires first { FitsSigned w16 a }
    requires second { FitsSigned w16 b }
    ensures value { result.value ≡ clip16 (floor (a *ℤ b +ℤ pos (2 ^ 14)) (2 ^ 15)) }
    ensures clips { result.clips ≡ changes16 (floor (a *ℤ b +ℤ pos (2 ^ 14)) (2 ^ 15)) }
{
    to_16(i64::from(fraction(product(a, b) + 0x4000)))
}

/// `L_mult`.
#[tactic(auto, using(crate::proofs::Products::in_range))]
pub(crate) fn doubled(a: i32, b: i32) -> Clipped
    requires first { FitsSigned w16 a }
    requires second { FitsSigned w16 b }
    ensures value { result.value ≡ clip32 (product_of a b) }
    ensures clips { result.clips ≡ changes32 (product_of a b) }
{
    to_32(2 * i64::from(product(a, b)))
}

/// `round`.
pub(crate) fn round(x: i32) -> Clipped
    ensures value { result.value ≡ rounded x }
    ensures clips { result.clips ≡ rounding_clips x }
{
    let sum = to_32(i64::from(x) + 0x8000);
    Clipped {
        value: upper(sum.value),
        clips: sum.clips,
    }
}

/// `L_mac`: the product is clipped before it is added.
#[tactic(auto, using(crate::proofs::Products::in_range))]
pub(crate) fn accumulate(x: i32, a: i32, b: i32) -> Clipped
    requires first { FitsSigned w16 a }
    requires second { FitsSigned w16 b }
    ensures value { result.value ≡ accumulated x a b }
    ensures clips { result.clips ≡ accumulation_clips x a b }
{
    let product = doubled(a, b);
    let sum = sum_32(x, product.value);
    Clipped {
        value: sum.value,
        clips: product.clips || sum.clips,
    }
}

/// `L_msu`: the product is clipped before it is subtracted.
#[tactic(auto, using(crate::proofs::Products::in_range))]
pub(crate) fn reduce(x: i32, a: i32, b: i32) -> Clipped
    requires first { FitsSigned w16 a }
    requires second { FitsSigned w16 b }
    ensures value { result.value ≡ reduced x a b }
    ensures clips { result.clips ≡ reduction_clips x a b }
{
    let product = doubled(a, b);
    let difference = difference_32(x, product.value);
    Clipped {
        value: difference.value,
        clips: product.clips || difference.clips,
    }
}

/// `mac_r`.
pub(crate) fn accumulate_and_round(x: i32, a: i32, b: i32) -> Clipped
    requires first { FitsSigned w16 a }
    requires second { FitsSigned w16 b }
    ensures value { result.value ≡ rounded (accumulated x a b) }
    ensures clips { result.clips ≡ (accumulation_clips x a b || rounding_clips (accumulated x a b)) }
{
    rounded_after(accumulate(x, a, b))
}

/// `msu_r`.
pub(crate) fn reduce_and_round(x: i32, a: i32, b: i32) -> Clipped
    requires first { FitsSigned w16 a }
    requires second { FitsSigned w16 b }
    ensures value { result.value ≡ rounded (reduced x a b) }
    ensures clips { result.clips ≡ (reduction_clips x a b || rounding_clips (reduced x a b)) }
{
    rounded_after(reduce(x, a, b))
}

/// The number rounded, and whether a clip changed one before or here.
fn rounded_after(before: Clipped) -> Clipped
    ensures value { result.value ≡ rounded before.value }
    ensures clips { result.clips ≡ (before.clips || rounding_clips before.value) }
{
    let after = round(before.value);
    Clipped {
        value: after.value,
        clips: before.clips || after.clips,
    }
}
