// The numbers among the words.

ghost use Rattle.std.specs.Prelude.{◌≡◌, ◌↔◌, ◌+◌, ◌-◌, ◌*◌, ◌^◌, ◌≤◌, ℕ, IsTrue, IfSome, IfNone};
ghost use Rattle.command_words.specs.Command.{IsStepCount, IsTurnCount};
ghost use Rattle.command_words.specs.Numbers.{IsDigit, IsNumber};

/// The most digits of a number of instructions.
const STEP_DIGITS: usize = 20;

/// The most digits of a number of turns.
const TURN_DIGITS: usize = 10;

/// The number of instructions that a word spells, if it spells one: at most 20 digits, leading zeros included, and at
/// most 2^64 - 1.
pub fn step_count(word: &str) -> Option<u64>
    ensures found { IfSome result (λ steps. IsStepCount word.now steps) }
    ensures none { IfNone result ((steps : ℕ) → IsStepCount word.now steps → ⊥) }
{
    spelled(word, STEP_DIGITS)
}

/// The number of turns that a word spells, if it spells one: at most 10 digits, leading zeros included, and at most
/// 2^32 - 1.
pub fn turn_count(word: &str) -> Option<u32>
    ensures found { IfSome result (λ turns. IsTurnCount word.now turns) }
    ensures none { IfNone result ((turns : ℕ) → IsTurnCount word.now turns → ⊥) }
{
    let turns = spelled(word, TURN_DIGITS)?;
    u32::try_from(turns).ok()
}

// The number that a word of at most so many digits spells, if it is at most 2^64 - 1.
fn spelled(word: &str, most_digits: usize) -> Option<u64>
    ensures found { IfSome result (λ value. IsNumber most_digits 18446744073709551615 word.now value) }
    ensures none { IfNone result ((value : ℕ) → IsNumber most_digits 18446744073709551615 word.now value → ⊥) }
{
    let digits = word.as_bytes();
    if digits.is_empty() || digits.len() > most_digits {
        return None;
    }
    let mut number: u64 = 0;
    for digit in digits {
        number = with_digit(number, *digit)?;
    }
    Some(number)
}

// The number with one digit more at its end, if that is a digit and the number fits.
fn with_digit(number: u64, digit: u8) -> Option<u64>
    ensures digit { IfSome result (λ more. IsDigit digit) }
    ensures more { IfSome result (λ more. more ≡ number * 10 + (digit - 48)) }
    ensures fits { IfSome result (λ more. more ≤ 18446744073709551615) }
    ensures none { IfNone result (IsDigit digit → 2 ^ 64 ≤ number * 10 + (digit - 48)) }
{
    if digit < b'0' || digit > b'9' {
        return None;
    }
    number.checked_mul(10)?.checked_add(u64::from(digit - b'0'))
}
