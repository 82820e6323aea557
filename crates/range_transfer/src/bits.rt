// Ranges of bitwise operations.

ghost use Rattle.std.specs.Prelude.{ℕ, ◌≤◌, pos, ◌≤ℤ◌};
ghost use Rattle.range_core.specs.Range.{IsRange, Covers};
ghost use Rattle.range_transfer.specs.Bits.{around, IsPowerOfHull, IsBitHull, IsAndRange, IsOrRange, IsRangeOfBits};

use range_core::Range;

/// A bitwise operation of two numbers, as C writes it: `&`, `|`, `^`.
#[derive(Clone, Copy, Debug, PartialEq, Eq, Hash)]
pub enum BitMark {
    And,
    Or,
    Xor,
}

/// The least n from 1 on such that the range lies from -n to n - 1.
fn reach(range: Range) -> u64
    requires { IsRange range }
    ensures few { result ≤ 2147483648 }
    ensures some { 1 ≤ result }
    ensures covers { Covers (around (pos result)) range }
    ensures least { (n : ℕ) → 1 ≤ n → Covers (around (pos n)) range → result ≤ n }
{
    match range {
        Range::Empty => 1,
        Range::Span { lo, hi } => (-lo).max(hi + 1) as u64,
    }
}

/// The least power of two p such that both ranges lie from -p to p - 1.
fn power_of_hull(left: Range, right: Range) -> i64
    requires left { IsRange left }
    requires right { IsRange right }
    ensures few { result ≤ℤ pos 2147483648 }
    ensures hull { IsPowerOfHull left right result }
{
    reach(left).max(reach(right)).next_power_of_two() as i64
}

/// The bit hull of both ranges.
fn bit_hull(left: Range, right: Range) -> Range
    requires left { IsRange left }
    requires right { IsRange right }
    ensures range { IsRange result }
    ensures hull { IsBitHull left right result }
{
    let power = power_of_hull(left, right);
    Range::Span {
        lo: -power,
        hi: power - 1,
    }
}

/// The range of `&`.
fn and_range(left: Range, right: Range) -> Range
    requires left { IsRange left }
    requires right { IsRange right }
    ensures range { IsRange result }
    ensures and { IsAndRange left right result }
{
    let Range::Span { lo, hi } = left else {
        return Range::Empty;
    };
    let Range::Span { lo: low, hi: high } = right else {
        return Range::Empty;
    };
    if lo < 0 && low < 0 {
        return bit_hull(left, right);
    }
    if lo < 0 {
        return Range::Span { lo: 0, hi: high };
    }
    if low < 0 {
        return Range::Span { lo: 0, hi };
    }
    Range::Span {
        lo: 0,
        hi: hi.min(high),
    }
}

/// The range of `|` and of `^`.
fn or_range(left: Range, right: Range) -> Range
    requires left { IsRange left }
    requires right { IsRange right }
    ensures range { IsRange result }
    ensures or { IsOrRange left right result }
{
    let Range::Span { lo, .. } = left else {
        return Range::Empty;
    };
    let Range::Span { lo: low, .. } = right else {
        return Range::Empty;
    };
    if lo.min(low) < 0 {
        return bit_hull(left, right);
    }
    Range::Span {
        lo: 0,
        hi: power_of_hull(left, right) - 1,
    }
}

/// The range of a bitwise operation. For `&` it begins at 0 where one side has no negative number, and ends
/// at the lesser high end of such sides. Else it has the numbers of as few bits and a sign as both sides
/// need, and of these the negative ones only where a side has one. It is empty where a side is.
pub fn image_bits(mark: BitMark, left: Range, right: Range) -> Range
    requires left { IsRange left }
    requires right { IsRange right }
    ensures range { IsRange result }
    ensures bits { IsRangeOfBits mark left right result }
{
    match mark {
        BitMark::And => and_range(left, right),
        BitMark::Or => or_range(left, right),
        BitMark::Xor => or_range(left, right),
    }
}
