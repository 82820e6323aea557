// The size of the data memory, which keeps left operands.

ghost use Rattle.std.specs.Prelude.{◌≡◌, ◌*◌, ◌≤◌, All};
ghost use Rattle.first_form.specs.Form.{nesting_of};
ghost use Rattle.sat_base.specs.declared.limits.TheConstants.{DEPTH};
ghost use Rattle.sat_compile.specs.Emission.{deepest_of, levels_of};

use first_form::{First, FirstExpr};

/// The bytes of the data memory: a word for each level of calls below the outermost.
pub fn memory_len(first: &First) -> usize
    requires { All (λ e. nesting_of e ≤ DEPTH) first.now.outs }
    ensures { result ≡ 4 * levels_of first.now }
{
    4 * deepest(first.outs.as_slice()).saturating_sub(1)
}

// How many calls lie one in another at most.
fn deepest(outs: &[FirstExpr]) -> usize
    requires { All (λ e. nesting_of e ≤ DEPTH) outs.now }
    ensures value { result ≡ deepest_of outs.now }
    ensures within { result ≤ DEPTH }
{
    let mut deepest = 0;
    for expr in outs {
        deepest = nesting(expr).max(deepest);
    }
    deepest
}

// How many calls lie one in another in an expression.
fn nesting(expr: &FirstExpr) -> usize
    requires { nesting_of expr.now ≤ DEPTH }
    ensures { result ≡ nesting_of expr.now }
{
    match expr {
        FirstExpr::Int(_) => 0,
        FirstExpr::Add { left, right, .. } | FirstExpr::Sub { left, right, .. } => {
            let left = nesting(left.get());
            let right = nesting(right.get());
            left.max(right) + 1
        }
    }
}
