// Relations, and the values of two ranges that can stand in one.

ghost use Rattle.std.specs.Prelude.{◌↔◌, ℤ, ◌≤ℤ◌, ◌≢◌};
ghost use Rattle.range_core.specs.Range.{IsRange, IsIn, IsLeast};
ghost use Rattle.range_transfer.specs.Relation.{Holds, HasPartner};

use range_core::{Range, meet};

/// A relation of two numbers, as C writes it: `<`, `<=`, `>`, `>=`, `==`, `!=`.
#[derive(Clone, Copy, Debug, PartialEq, Eq, Hash)]
pub enum Rel {
    Lt,
    Le,
    Gt,
    Ge,
    Eq,
    Ne,
}

/// The relation of the two numbers in the other order.
fn turned(rel: Rel) -> Rel
    ensures { (x y : ℤ) → Holds result x y ↔ Holds rel y x }
{
    match rel {
        Rel::Lt => Rel::Gt,
        Rel::Le => Rel::Ge,
        Rel::Gt => Rel::Lt,
        Rel::Ge => Rel::Le,
        Rel::Eq => Rel::Eq,
        Rel::Ne => Rel::Ne,
    }
}

/// The relation that holds where this one does not.
fn opposite(rel: Rel) -> Rel
    ensures { (x y : ℤ) → Holds result x y ↔ (Holds rel x y → ⊥) }
{
    match rel {
        Rel::Lt => Rel::Ge,
        Rel::Le => Rel::Gt,
        Rel::Gt => Rel::Le,
        Rel::Ge => Rel::Lt,
        Rel::Eq => Rel::Ne,
        Rel::Ne => Rel::Eq,
    }
}

/// The values that are at most `most`.
fn up_to(range: Range, most: i64) -> Range
    requires { IsRange range }
    ensures range { IsRange result }
    ensures values { (x : ℤ) → IsIn x result ↔ IsIn x range × x ≤ℤ most }
{
    match range {
        Range::Span { lo, hi } if lo <= most => Range::Span {
            lo,
            hi: hi.min(most),
        },
        _ => Range::Empty,
    }
}

/// The values that are at least `least`.
fn from(range: Range, least: i64) -> Range
    requires { IsRange range }
    ensures range { IsRange result }
    ensures values { (x : ℤ) → IsIn x result ↔ IsIn x range × least ≤ℤ x }
{
    match range {
        Range::Span { lo, hi } if least <= hi => Range::Span {
            lo: lo.max(least),
            hi,
        },
        _ => Range::Empty,
    }
}

/// The least range with the values other than the one.
fn without(range: Range, one: i64) -> Range
    requires { IsRange range }
    ensures range { IsRange result }
    ensures least { IsLeast (λ (x : ℤ). IsIn x range × x ≢ one) result }
{
    let Range::Span { lo, hi } = range else {
        return Range::Empty;
    };
    if lo == one {
        from(range, one + 1)
    } else if hi == one {
        up_to(range, one - 1)
    } else {
        range
    }
}

/// The least range with the own values that are in the relation to some value of the other range.
fn partners(rel: Rel, own: Range, other: Range) -> Range
    requires own { IsRange own }
    requires other { IsRange other }
    ensures range { IsRange result }
    ensures least { IsLeast (HasPartner (Holds rel) own other) result }
{
    let Range::Span { lo, hi } = other else {
        return Range::Empty;
    };
    match rel {
        Rel::Lt => up_to(own, hi - 1),
        Rel::Le => up_to(own, hi),
        Rel::Gt => from(own, lo + 1),
        Rel::Ge => from(own, lo),
        Rel::Eq => meet(own, other),
        Rel::Ne if lo < hi => own,
        Rel::Ne => without(own, lo),
    }
}

/// The two sides of a relation where it holds: each keeps the least range of those of its own values that
/// have a partner on the other side.
pub fn refine_true(rel: Rel, left: Range, right: Range) -> (Range, Range)
    requires left { IsRange left }
    requires right { IsRange right }
    ensures left_range { IsRange result.0 }
    ensures right_range { IsRange result.1 }
    ensures left { IsLeast (HasPartner (Holds rel) left right) result.0 }
    ensures right { IsLeast (HasPartner (λ (y x : ℤ). Holds rel x y) right left) result.1 }
{
    (
        partners(rel, left, right),
        partners(turned(rel), right, left),
    )
}

/// The two sides of a relation where it does not hold: each keeps the least range of those of its own values
/// that have a partner on the other side.
pub fn refine_false(rel: Rel, left: Range, right: Range) -> (Range, Range)
    requires left { IsRange left }
    requires right { IsRange right }
    ensures left_range { IsRange result.0 }
    ensures right_range { IsRange result.1 }
    ensures left { IsLeast (HasPartner (λ (x y : ℤ). Holds rel x y → ⊥) left right) result.0 }
    ensures right { IsLeast (HasPartner (λ (y x : ℤ). Holds rel x y → ⊥) right left) result.1 }
{
    refine_true(opposite(rel), left, right)
}
