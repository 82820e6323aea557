// The clips of the basic operators (ITU-T G.191, Software Tool Library manual, basic operators).

ghost use Rattle.std.specs.Prelude.{◌≡◌, FitsSigned};
ghost use Rattle.std.specs.Int.{w16};
ghost use Rattle.sat_base.specs.Clip.{clip16, clip32, low16};

/// The number of 16 bits that is nearest to `x`: 32767 above the range, -32768 below it.
pub fn clip16(x: i64) -> i32
    ensures { result ≡ clip16 x }
{
    x.clamp(-32_768, 32_767) as i32
}

/// The number of 32 bits that is nearest to `x`: 2147483647 above the range, -2147483648 below it.
pub fn clip32(x: i64) -> i32
    ensures { result ≡ clip32 x }
{
    x.clamp(-2_147_483_648, 2_147_483_647) as i32
}

/// The low 16 bits of `x`, read as a signed number.
pub fn low16(x: i32) -> i32
    ensures value { result ≡ low16 x }
    ensures fits { FitsSigned w16 result }
{
    let low = x.rem_euclid(65_536);
    if low < 32_768 { low } else { low - 65_536 }
}
