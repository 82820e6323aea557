// What the instructions compute of two numbers (RISC-V unprivileged specification).

ghost use Rattle.std.specs.Prelude.{◌≡◌, ◌<◌, ◌*◌};
ghost use Rattle.rv_encode.specs.Arithmetic.{is_below, flag_of, shift_amount, shifted_left, shifted_right, shifted_right_signed, upper_product, upper_product_mixed, upper_product_unsigned, quotient, remainder, quotient_unsigned, remainder_unsigned};

/// 1 where it holds, else 0.
pub fn flag(holds: bool) -> i32
    ensures { result ≡ flag_of holds }
{
    i32::from(holds)
}

/// Whether `a` is less than `b` as an unsigned number.
pub fn is_below(a: i32, b: i32) -> bool
    ensures { result ≡ is_below a b }
{
    a.cast_unsigned() < b.cast_unsigned()
}

/// The low 5 bits.
pub fn shift_amount(b: i32) -> u32
    ensures value { result ≡ shift_amount b }
    ensures fits { result < 32 }
{
    b.cast_unsigned() % 32
}

pub fn shifted_left(a: i32, amount: u32) -> i32
    requires { amount < 32 }
    ensures { result ≡ shifted_left a amount }
{
    a << amount
}

/// Zeros come in from the left.
pub fn shifted_right(a: i32, amount: u32) -> i32
    requires { amount < 32 }
    ensures { result ≡ shifted_right a amount }
{
    (a.cast_unsigned() >> amount).cast_signed()
}

/// The sign comes in from the left.
pub fn shifted_right_signed(a: i32, amount: u32) -> i32
    requires { amount < 32 }
    ensures { result ≡ shifted_right_signed a amount }
{
    a >> amount
}

/// The upper 32 bits of the product of two signed numbers.
pub fn upper_product(a: i32, b: i32) -> i32
    ensures { result ≡ upper_product a b }
{
    ((i64::from(a) * i64::from(b)) >> 32) as i32
}

/// The upper 32 bits of the product of a signed number and an unsigned one.
pub fn upper_product_mixed(a: i32, b: i32) -> i32
    ensures { result ≡ upper_product_mixed a b }
{
    ((i64::from(a) * i64::from(b.cast_unsigned())) >> 32) as i32
}

/// The upper 32 bits of the product of two unsigned numbers.
pub fn upper_product_unsigned(a: i32, b: i32) -> i32
    ensures { result ≡ upper_product_unsigned a b }
{
    let product = u64::from(a.cast_unsigned()) * u64::from(b.cast_unsigned());
    ((product >> 32) as u32).cast_signed()
}

/// The quotient of signed numbers, -1 where the divisor is 0, and -2^31 of -2^31 by -1.
pub fn quotient(a: i32, b: i32) -> i32
    ensures { result ≡ quotient a b }
{
    if b == 0 { -1 } else { a.wrapping_div(b) }
}

/// The remainder of signed numbers, the dividend where the divisor is 0, and 0 of -2^31 by -1.
pub fn remainder(a: i32, b: i32) -> i32
    ensures { result ≡ remainder a b }
{
    if b == 0 { a } else { a.wrapping_rem(b) }
}

/// The quotient of unsigned numbers, and all ones where the divisor is 0.
pub fn quotient_unsigned(a: i32, b: i32) -> i32
    ensures { result ≡ quotient_unsigned a b }
{
    match a.cast_unsigned().checked_div(b.cast_unsigned()) {
        Some(quotient) => quotient.cast_signed(),
        None => -1,
    }
}

/// The remainder of unsigned numbers, and the dividend where the divisor is 0.
pub fn remainder_unsigned(a: i32, b: i32) -> i32
    ensures { result ≡ remainder_unsigned a b }
{
    match a.cast_unsigned().checked_rem(b.cast_unsigned()) {
        Some(remainder) => remainder.cast_signed(),
        None => a,
    }
}
