// How many shifts normalize a number.

ghost use Rattle.std.specs.Prelude.{◌≡◌, ◌≢◌, ◌<◌, pos, FitsSigned};
ghost use Rattle.std.specs.Int.{w16, leading_zeros, w32};
ghost use Rattle.std.specs.Int.Signed.{mag};
ghost use Rattle.operator_meaning.specs.Value.{norm};

/// The number, or -1 minus it where it is negative: it has its leading zeros where the number has copies of
/// its sign.
fn without_sign(x: i32) -> u32
    ensures { result ≡ mag x }
{
    (if x < 0 { -1 - x } else { x }) as u32
}

/// `norm_s`.
pub(crate) fn norm_16(x: i32) -> i32
    requires { FitsSigned w16 x }
    ensures { result ≡ norm 14 x }
{
    if x == 0 {
        return 0;
    }
    without_sign(x).leading_zeros() as i32 - 17
}

/// `norm_l`.
pub(crate) fn norm_32(x: i32) -> i32
    ensures { result ≡ norm 30 x }
{
    if x == 0 {
        return 0;
    }
    without_sign(x).leading_zeros() as i32 - 1
}
