// Ranges, and what two of them have together and in common.

ghost use Rattle.std.specs.Prelude.{◌↔◌, ◌⊎◌, ℤ, IsTrue};
ghost use Rattle.range_core.specs.Range.{IsRange, IsIn, Covers, IsLeast};

/// The whole numbers from one to another, or none.
#[derive(Clone, Copy, Debug, PartialEq, Eq, Hash)]
pub enum Range {
    /// No number.
    Empty,
    /// The numbers from `lo` to `hi`, both included. `lo` is at most `hi`, and both lie in 32 bits.
    Span { lo: i64, hi: i64 },
}

/// The least range with the values of both.
pub fn join(left: Range, right: Range) -> Range
    requires left { IsRange left }
    requires right { IsRange right }
    ensures range { IsRange result }
    ensures least { IsLeast (λ (x : ℤ). IsIn x left ⊎ IsIn x right) result }
{
    let Range::Span { lo, hi } = left else {
        return right;
    };
    let Range::Span { lo: low, hi: high } = right else {
        return left;
    };
    Range::Span {
        lo: lo.min(low),
        hi: hi.max(high),
    }
}

/// The values that are in both.
pub fn meet(left: Range, right: Range) -> Range
    requires left { IsRange left }
    requires right { IsRange right }
    ensures range { IsRange result }
    ensures common { (x : ℤ) → IsIn x result ↔ IsIn x left × IsIn x right }
{
    let Range::Span { lo, hi } = left else {
        return Range::Empty;
    };
    let Range::Span { lo: low, hi: high } = right else {
        return Range::Empty;
    };
    let lo = lo.max(low);
    let hi = hi.min(high);
    if lo <= hi {
        Range::Span { lo, hi }
    } else {
        Range::Empty
    }
}

/// Whether each value of the inner range is one of the outer.
pub fn contains(outer: Range, inner: Range) -> bool
    requires outer { IsRange outer }
    requires inner { IsRange inner }
    ensures { IsTrue result ↔ Covers outer inner }
{
    let Range::Span { lo, hi } = inner else {
        return true;
    };
    let Range::Span { lo: low, hi: high } = outer else {
        return false;
    };
    low <= lo && hi <= high
}
