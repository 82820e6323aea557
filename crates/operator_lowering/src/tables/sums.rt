// Sums and differences.

use crate::assembly::words;
use rv_encode::Instr;
use rv_encode::register::{OVERFLOW, T0, T1, T2, ZERO};
use template_runs::registers::{FIRST, RESULT, SECOND};

// The sum of the operands, modulo 2^32.
pub(crate) static SUM: [Instr; 1] = words![add RESULT, FIRST, SECOND];

// The difference of the operands, modulo 2^32.
pub(crate) static DIFFERENCE: [Instr; 1] = words![sub RESULT, FIRST, SECOND];

// A sum or a difference, clipped to 32 bits. It is exact where the second operand is not negative and the high one of the
// two named is not less than the low one, and where it is negative and the high one is less. Both operands are read after
// the result is written.
macro_rules! clipped {
    ($name:ident, $high:ident, $low:ident, $size:literal; $($flag:tt)*) => {
        words![
            $name RESULT, FIRST, SECOND;
            blt SECOND, ZERO, 12;
            bge $high, $low, 24 + $size;
            jal ZERO, 8;
            blt $high, $low, 16 + $size;
            srai T0, RESULT, 31;
            lui RESULT, 0x80000;
            xor RESULT, RESULT, T0;
            $($flag)*
        ]
    };
}

pub(crate) static L_ADD_CLAMP: [Instr; 8] = clipped!(add, RESULT, FIRST, 0;);

pub(crate) static L_ADD_FLAG: [Instr; 9] = clipped!(add, RESULT, FIRST, 4; addi OVERFLOW, ZERO, 1;);

pub(crate) static L_SUB_CLAMP: [Instr; 8] = clipped!(sub, FIRST, RESULT, 0;);

pub(crate) static L_SUB_FLAG: [Instr; 9] = clipped!(sub, FIRST, RESULT, 4; addi OVERFLOW, ZERO, 1;);

// The same where the result has the register of the second operand, which is read before.
macro_rules! clipped_in_place {
    ($name:ident, $high:ident, $low:ident, $size:literal; $($flag:tt)*) => {
        words![
            blt SECOND, ZERO, 16;
            $name RESULT, FIRST, SECOND;
            bge $high, $low, 28 + $size;
            jal ZERO, 12;
            $name RESULT, FIRST, SECOND;
            blt $high, $low, 16 + $size;
            srai T0, RESULT, 31;
            lui RESULT, 0x80000;
            xor RESULT, RESULT, T0;
            $($flag)*
        ]
    };
}

pub(crate) static L_ADD_IN_PLACE_CLAMP: [Instr; 9] = clipped_in_place!(add, RESULT, FIRST, 0;);

pub(crate) static L_ADD_IN_PLACE_FLAG: [Instr; 10] =
    clipped_in_place!(add, RESULT, FIRST, 4; addi OVERFLOW, ZERO, 1;);

pub(crate) static L_SUB_IN_PLACE_CLAMP: [Instr; 9] = clipped_in_place!(sub, FIRST, RESULT, 0;);

pub(crate) static L_SUB_IN_PLACE_FLAG: [Instr; 10] =
    clipped_in_place!(sub, FIRST, RESULT, 4; addi OVERFLOW, ZERO, 1;);

// The upper half of the operand and 2^15.
pub(crate) static ROUND_PLAIN: [Instr; 3] = words![
    lui T0, 8;
    add T1, FIRST, T0;
    srai RESULT, T1, 16;
];

// The same of a register, the sum clipped to 32 bits. What is so great that the sum is clipped has 32767 as its own upper
// half, as 2^31 - 1 has.
macro_rules! rounded {
    ($number:ident, $size:literal; $($flag:tt)*) => {
        words![
            lui T0, 8;
            add T1, $number, T0;
            bge T1, $number, 8 + $size;
            addi T1, $number, 0;
            $($flag)*
            srai RESULT, T1, 16;
        ]
    };
}

pub(crate) static ROUND_CLAMP: [Instr; 5] = rounded!(FIRST, 0;);

pub(crate) static ROUND_FLAG: [Instr; 6] = rounded!(FIRST, 4; addi OVERFLOW, ZERO, 1;);

pub(crate) static ROUND_SUM_CLAMP: [Instr; 5] = rounded!(T2, 0;);

pub(crate) static ROUND_SUM_FLAG: [Instr; 6] = rounded!(T2, 4; addi OVERFLOW, ZERO, 1;);
