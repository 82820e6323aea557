// What the marks of expressions and assignments do with numbers.

ghost use Rattle.std.specs.Prelude.{◌≡◌, neg_ℤ, ◌+ℤ◌, ◌-ℤ◌, ◌*ℤ◌};
ghost use Rattle.std.specs.Option.{ok_or};
ghost use Rattle.source_runs.specs.declared.halt.Halt.TheVariants.{Stopped};
ghost use Rattle.source_runs.specs.Runs.{holds};
ghost use Rattle.source_runs.specs.Marks.{within, truth, unary_meaning, both_meaning, decided, assigned};
ghost use Rattle.source_runs.specs.Follows.{Answers};

use crate::halt::Halt;
use c_tree::{AssignMark, BinaryMark, UnaryMark};

/// Whether a condition of this value holds.
pub fn holds(value: i32) -> bool
    ensures { result ≡ holds value }
{
    value != 0
}

/// 1 or 0.
fn truth(holds: bool) -> i32
    ensures { result ≡ truth holds }
{
    i32::from(holds)
}

/// The opposite, where it has 32 bits.
fn opposite(x: i32) -> Option<i32>
    ensures { result ≡ within (neg_ℤ x) }
{
    x.checked_neg()
}

/// The sum, where it has 32 bits.
fn sum(x: i32, y: i32) -> Option<i32>
    ensures { result ≡ within (x +ℤ y) }
{
    x.checked_add(y)
}

/// The difference, where it has 32 bits.
fn difference(x: i32, y: i32) -> Option<i32>
    ensures { result ≡ within (x -ℤ y) }
{
    x.checked_sub(y)
}

/// The product, where it has 32 bits.
fn product(x: i32, y: i32) -> Option<i32>
    ensures { result ≡ within (x *ℤ y) }
{
    x.checked_mul(y)
}

/// What a site computes; a stop there where it is nothing.
fn plain(site: u32, value: Option<i32>) -> Result<i32, Halt>
    ensures { result ≡ ok_or value (Stopped site) }
{
    value.ok_or(Halt::Stopped(site))
}

/// A mark before its operand.
#[tactic(auto, using(crate::proofs::Following::following), unfolding(crate::specs::Marks::unary_meaning))]
pub fn unary(mark: UnaryMark, site: u32, x: i32) -> Result<i32, Halt>
    ensures { Answers (unary_meaning mark site x) result }
{
    match mark {
        UnaryMark::Minus => plain(site, opposite(x)),
        UnaryMark::Plus => Ok(x),
        UnaryMark::Not => Ok(truth(x == 0)),
        UnaryMark::Invert => Ok(!x),
    }
}

/// The value where the left operand decides alone: of `&&` where it is 0, and of `||` where it is not.
pub fn decided(mark: BinaryMark, x: i32) -> Option<i32>
    ensures { result ≡ decided mark x }
{
    match mark {
        BinaryMark::Both => { if holds(x) { None } else { Some(0) } }
        BinaryMark::Either => { if holds(x) { Some(1) } else { None } }
        _ => None,
    }
}

/// A mark between two operands that are both evaluated.
#[tactic(auto, using(crate::proofs::Following::following), unfolding(crate::specs::Marks::both_meaning))]
pub fn both(mark: BinaryMark, site: u32, x: i32, y: i32) -> Result<i32, Halt>
    ensures { Answers (both_meaning mark site x y) result }
{
    match mark {
        BinaryMark::Plus => plain(site, sum(x, y)),
        BinaryMark::Minus => plain(site, difference(x, y)),
        BinaryMark::Times => plain(site, product(x, y)),
        BinaryMark::BitAnd => Ok(x & y),
        BinaryMark::BitOr => Ok(x | y),
        BinaryMark::BitXor => Ok(x ^ y),
        BinaryMark::Eq => Ok(truth(x == y)),
        BinaryMark::Ne => Ok(truth(x != y)),
        BinaryMark::Lt => Ok(truth(x < y)),
        BinaryMark::Le => Ok(truth(x <= y)),
        BinaryMark::Gt => Ok(truth(x > y)),
        BinaryMark::Ge => Ok(truth(x >= y)),
        BinaryMark::Both | BinaryMark::Either => Ok(truth(holds(y))),
    }
}

/// What an assignment writes, of the old value and the right side.
#[tactic(auto, using(crate::proofs::Following::following), unfolding(crate::specs::Marks::assigned))]
pub fn assigned(mark: AssignMark, site: u32, old: i32, value: i32) -> Result<i32, Halt>
    ensures { Answers (assigned mark site old value) result }
{
    match mark {
        AssignMark::Plain => Ok(value),
        AssignMark::Plus => plain(site, sum(old, value)),
        AssignMark::Minus => plain(site, difference(old, value)),
        AssignMark::Times => plain(site, product(old, value)),
        AssignMark::And => Ok(old & value),
        AssignMark::Or => Ok(old | value),
        AssignMark::Xor => Ok(old ^ value),
    }
}
