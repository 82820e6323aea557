// Constant expressions (C90, 6.4).

ghost use Rattle.std.specs.Prelude.{◌≡◌};
ghost use Rattle.constant_expressions.specs.Folding.{folded, folded_kind, converted, unary_value, binary_value};

use c_tree::{BinaryMark, Expr, ExprKind, UnaryMark};
use sat_base::{Width, low16};

/// The value of a constant expression, which is built from numbers, casts, unary `-` and `+`, and `+`,
/// `-` and `*`. None where it is no constant expression, and where a value on the way leaves 32 bits.
pub fn folded(e: &Expr) -> Option<i32>
    ensures { result ≡ folded e.now }
{
    value_of(&e.kind)
}

/// The value of what stands in brackets.
#[tactic(auto, using(crate::proofs::Constants::foldings))]
fn value_of(kind: &ExprKind) -> Option<i32>
    ensures { result ≡ folded_kind kind.now }
{
    match kind {
        ExprKind::Int(value) => Some(*value),
        ExprKind::Unary { mark, part, .. } => signed(*mark, value_of(&part.get().kind)),
        ExprKind::Binary {
            mark,
            left,
            right,
            ..
        } => joined(
            *mark,
            value_of(&left.get().kind),
            value_of(&right.get().kind),
        ),
        ExprKind::Cast { width, part } => cast(*width, value_of(&part.get().kind)),
        _ => None,
    }
}

/// The value of a cast.
fn cast(width: Width, part: Option<i32>) -> Option<i32>
    ensures { result ≡ converted width part }
{
    match (width, part) {
        (Width::W16, Some(value)) => Some(low16(value)),
        (Width::W32, _) => part,
        (_, None) => None,
    }
}

/// The value with a mark before it.
fn signed(mark: UnaryMark, part: Option<i32>) -> Option<i32>
    ensures { result ≡ unary_value mark part }
{
    match (mark, part) {
        (UnaryMark::Plus, _) => part,
        (UnaryMark::Minus, Some(value)) => value.checked_neg(),
        _ => None,
    }
}

/// The value of a sum, a difference or a product.
fn joined(mark: BinaryMark, left: Option<i32>, right: Option<i32>) -> Option<i32>
    ensures { result ≡ binary_value mark left right }
{
    match (left, right) {
        (Some(left), Some(right)) => match mark {
            BinaryMark::Plus => left.checked_add(right),
            BinaryMark::Minus => left.checked_sub(right),
            BinaryMark::Times => left.checked_mul(right),
            _ => None,
        },
        _ => None,
    }
}
