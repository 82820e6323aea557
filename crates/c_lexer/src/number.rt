// The values of numbers.

ghost use Rattle.std.specs.Prelude.{◌≡◌, ◌≤◌, ◌^◌, ◌<◌, length, IfSome};
ghost use Rattle.c_lexer.specs.Number.{numeral, without_suffix, is_hexadecimal, is_octal, signed_pattern, octal_or_decimal, digits_number, number_value};

/// What the digits write, at least one, if it is at most `most`.
#[tactic(auto, using(crate::proofs::Numerals::numerals))]
fn numeral(digits: &[u8], radix: u32, most: u32) -> Option<u32>
    requires low { 2 ≤ radix }
    requires high { radix ≤ 16 }
    ensures value { result ≡ numeral radix most digits.now }
    ensures small { IfSome result (λ value. value ≤ most) }
{
    if digits.is_empty() {
        return None;
    }
    let mut value: u64 = 0;
    for digit in digits {
        let digit = char::from(*digit).to_digit(radix)?;
        value = value * u64::from(radix) + u64::from(digit);
        if value > u64::from(most) {
            return None;
        }
    }
    Some(value as u32)
}

/// The number without one `L` or `l` at its end.
fn without_suffix(piece: &[u8]) -> &[u8]
    ensures { result.now ≡ without_suffix piece.now }
{
    let len = piece.len();
    if len > 0 && (piece[len - 1] == b'L' || piece[len - 1] == b'l') {
        &piece[..len - 1]
    } else {
        piece
    }
}

/// Whether the number is written in hexadecimal digits.
fn is_hexadecimal(digits: &[u8]) -> bool
    ensures { result ≡ is_hexadecimal digits.now }
{
    digits.len() > 1 && digits[0] == b'0' && (digits[1] == b'x' || digits[1] == b'X')
}

/// Whether the number is written in octal digits.
fn is_octal(digits: &[u8]) -> bool
    ensures { result ≡ is_octal digits.now }
{
    digits.len() > 1 && digits[0] == b'0'
}

/// The signed number with the pattern of the unsigned one.
fn signed_pattern(pattern: u32) -> i32
    ensures { result ≡ signed_pattern pattern }
{
    pattern.cast_signed()
}

/// The value of the digits of an octal or a decimal number.
#[tactic(auto, unfolding(crate::specs::Number::octal_or_decimal))]
fn octal_or_decimal(digits: &[u8]) -> Option<u32>
    ensures value { result ≡ octal_or_decimal digits.now }
    ensures small { IfSome result (λ value. value < 2 ^ 31) }
{
    if is_octal(digits) {
        numeral(&digits[1..], 8, i32::MAX as u32)
    } else {
        numeral(digits, 10, i32::MAX as u32)
    }
}

/// The value of the digits with their prefix, or `None` where they break the rules of numbers.
#[tactic(auto, unfolding(crate::specs::Number::digits_number))]
fn digits_number(digits: &[u8]) -> Option<i32>
    ensures { result ≡ digits_number digits.now }
{
    if is_hexadecimal(digits) {
        let pattern = numeral(&digits[2..], 16, u32::MAX)?;
        return Some(signed_pattern(pattern));
    }
    let value = octal_or_decimal(digits)?;
    Some(value as i32)
}

/// The value of the number, or `None` where it breaks the rules of numbers.
pub(crate) fn number_value(piece: &[u8]) -> Option<i32>
    ensures { result ≡ number_value piece.now }
{
    digits_number(without_suffix(piece))
}
