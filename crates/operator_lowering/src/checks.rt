// The checks of sites that can stop, as instructions of a template. Where nothing stops they jump over the words of the
// stop, whose size in bytes is passed, and where the site stops to those words.

ghost use Rattle.std.specs.Prelude.{◌≡◌, ◌<◌, true, false};
ghost use Rattle.operator_lowering.specs.Words.{is_small, stop_size, sum_check, difference_check, product_check, opposite_check, quotient_check, view_check, edge_check, sample_check, sample_words};

use crate::assembly::words;
use rv_encode::Instr;
use rv_encode::register::{A0, A7, T0, T1, ZERO};
use template_runs::registers::{FIRST, RESULT, SECOND, THIRD};

/// Whether one word makes a number.
pub(crate) fn is_small(number: u32) -> bool
    ensures { result ≡ is_small number }
{
    number < 2048
}

/// The bytes of the stop at a site.
pub(crate) fn stop_size(site: u32) -> u8
    ensures { result ≡ stop_size (is_small site) }
{
    if is_small(site) { 12 } else { 16 }
}

// A sum or a difference lies in 32 bits, as the clip of one tells.
macro_rules! exact {
    ($name:ident, $high:ident, $low:ident, $size:ident) => {
        words![
            $name RESULT, FIRST, SECOND;
            blt SECOND, ZERO, 12;
            bge $high, $low, $size + 12;
            jal ZERO, 8;
            blt $high, $low, $size + 4;
        ]
    };
}

// The same where the result has the register of the second operand.
macro_rules! exact_in_place {
    ($name:ident, $high:ident, $low:ident, $size:ident) => {
        words![
            blt SECOND, ZERO, 16;
            $name RESULT, FIRST, SECOND;
            bge $high, $low, $size + 16;
            jal ZERO, 12;
            $name RESULT, FIRST, SECOND;
            blt $high, $low, $size + 4;
        ]
    };
}

/// The sum lies in 32 bits.
pub(crate) fn sum_check(size: u8) -> [Instr; 5]
    ensures { result ≡ sum_check false size }
{
    let size = i32::from(size);
    exact!(add, RESULT, FIRST, size)
}

/// The same where the result has the register of the second operand.
pub(crate) fn sum_check_in_place(size: u8) -> [Instr; 6]
    ensures { result ≡ sum_check true size }
{
    let size = i32::from(size);
    exact_in_place!(add, RESULT, FIRST, size)
}

/// The difference lies in 32 bits.
pub(crate) fn difference_check(size: u8) -> [Instr; 5]
    ensures { result ≡ difference_check false size }
{
    let size = i32::from(size);
    exact!(sub, FIRST, RESULT, size)
}

/// The same where the result has the register of the second operand.
pub(crate) fn difference_check_in_place(size: u8) -> [Instr; 6]
    ensures { result ≡ difference_check true size }
{
    let size = i32::from(size);
    exact_in_place!(sub, FIRST, RESULT, size)
}

/// The upper half of the product is the sign of the lower one.
pub(crate) fn product_check(size: u8) -> [Instr; 4]
    ensures { result ≡ product_check size }
{
    words![
        mulh T1, FIRST, SECOND;
        mul RESULT, FIRST, SECOND;
        srai T0, RESULT, 31;
        beq T1, T0, i32::from(size) + 4;
    ]
}

/// The operand is not -2^31.
pub(crate) fn opposite_check(size: u8) -> [Instr; 2]
    ensures { result ≡ opposite_check size }
{
    words![
        lui T0, 0x80000;
        bne FIRST, T0, i32::from(size) + 4;
    ]
}

/// The operands are a valid pair of `div_s`.
pub(crate) fn quotient_check(size: u8) -> [Instr; 2]
    ensures { result ≡ quotient_check size }
{
    words![
        bge ZERO, SECOND, 8;
        bgeu SECOND, FIRST, i32::from(size) + 4;
    ]
}

// Offset and index have a sum that is not negative, and the word that follows tells whether it is small enough.
macro_rules! inside {
    ($($last:tt)*) => {
        words![
            bge SECOND, ZERO, 8;
            blt FIRST, ZERO, 16;
            add RESULT, FIRST, SECOND;
            blt RESULT, ZERO, 8;
            $($last)*
        ]
    };
}

/// Offset and index have a sum from 0 to below the length.
pub(crate) fn view_check(size: u8) -> [Instr; 5]
    ensures { result ≡ view_check size }
{
    inside!(blt RESULT, THIRD, i32::from(size) + 4)
}

/// Offset and index have a sum from 0 to the length.
pub(crate) fn edge_check(size: u8) -> [Instr; 5]
    ensures { result ≡ edge_check size }
{
    inside!(bge THIRD, RESULT, i32::from(size) + 4)
}

/// A sample is left.
pub(crate) fn sample_check(size: u8) -> [Instr; 3]
    ensures { result ≡ sample_check size }
{
    words![
        addi A7, ZERO, 1;
        ecall;
        bne A0, ZERO, i32::from(size) + 4;
    ]
}

/// The next sample.
pub(crate) fn sample_words() -> [Instr; 3]
    ensures { result ≡ sample_words }
{
    words![
        addi A7, ZERO, 2;
        ecall;
        addi RESULT, A0, 0;
    ]
}
