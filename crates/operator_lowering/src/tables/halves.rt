// Halves of numbers, and magnitudes.

use crate::assembly::words;
use rv_encode::Instr;
use rv_encode::register::{T0, ZERO};
use template_runs::registers::{FIRST, RESULT};

// The upper half.
pub(crate) static EXTRACT_H: [Instr; 1] = words![srai RESULT, FIRST, 16];

// The low half, as signed.
pub(crate) static EXTRACT_L: [Instr; 2] = words![slli RESULT, FIRST, 16; srai RESULT, RESULT, 16];

// The operand times 2^16.
pub(crate) static DEPOSIT_H: [Instr; 1] = words![slli RESULT, FIRST, 16];

// The magnitude, as a product with -1 or 1.
pub(crate) static ABS_PLAIN: [Instr; 3] = words![
    srai T0, FIRST, 31;
    ori T0, T0, 1;
    mul RESULT, FIRST, T0;
];

// The magnitude of the result, clipped to one bit more than this number.
macro_rules! abs {
    ($bits:literal) => {
        words![
            bge RESULT, ZERO, 16;
            sub RESULT, ZERO, RESULT;
            srli T0, RESULT, $bits;
            sub RESULT, RESULT, T0;
        ]
    };
}

pub(crate) static ABS_16: [Instr; 4] = abs!(15);

pub(crate) static ABS_32: [Instr; 4] = abs!(31);

// The opposite, modulo 2^32.
pub(crate) static NEGATE_PLAIN: [Instr; 1] = words![sub RESULT, ZERO, FIRST];

// The opposite, clipped: this number times 2^12 is the one that is too great.
macro_rules! negate {
    ($upper:literal) => {
        words![
            sub RESULT, ZERO, FIRST;
            lui T0, $upper;
            bne RESULT, T0, 8;
            addi RESULT, RESULT, -1;
        ]
    };
}

pub(crate) static NEGATE_16: [Instr; 4] = negate!(8);

pub(crate) static NEGATE_32: [Instr; 4] = negate!(0x80000);
