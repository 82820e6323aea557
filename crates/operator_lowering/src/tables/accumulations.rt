// Sums with twice a product, and differences.

use crate::assembly::words;
use rv_encode::Instr;
use rv_encode::register::{OVERFLOW, T0, T1, T2, ZERO};
use template_runs::registers::{FIRST, RESULT, SECOND, THIRD};

// The first operand and twice the product of the others, or less it.
macro_rules! plain {
    ($name:ident) => {
        words![
            mul T0, SECOND, THIRD;
            slli T1, T0, 1;
            $name RESULT, FIRST, T1;
        ]
    };
}

pub(crate) static L_MAC_PLAIN: [Instr; 3] = plain!(add);

pub(crate) static L_MSU_PLAIN: [Instr; 3] = plain!(sub);

// The same, rounded to its upper half.
macro_rules! plain_half {
    ($name:ident) => {
        words![
            mul T0, SECOND, THIRD;
            slli T1, T0, 1;
            $name T2, FIRST, T1;
            lui T0, 8;
            add T1, T2, T0;
            srai RESULT, T1, 16;
        ]
    };
}

pub(crate) static MAC_PLAIN: [Instr; 6] = plain_half!(add);

pub(crate) static MSU_PLAIN: [Instr; 6] = plain_half!(sub);

// The sum, with a clip to 32 bits of twice the product and of the sum. Twice the product is 2^31 alone where it is negative
// and the product is not. A sum that is too great without that has a first operand above 0, so the words for 2^31 give
// its end too, and what is left is too small. The first operand is read after the sum is written.
macro_rules! accumulated {
    ($sum:ident, $size:literal; $($flag:tt)*) => {
        words![
            mul T0, SECOND, THIRD;
            slli T1, T0, 1;
            add $sum, FIRST, T1;
            blt T1, ZERO, 8;
            bge $sum, FIRST, 40 + $size;
            bge T0, ZERO, 16;
            blt $sum, FIRST, 32 + $size;
            lui $sum, 0x80000;
            jal ZERO, 24;
            lui T1, 0x80000;
            addi T1, T1, -1;
            add $sum, FIRST, T1;
            bge ZERO, FIRST, 8;
            addi $sum, T1, 0;
            $($flag)*
        ]
    };
}

pub(crate) static L_MAC_CLAMP: [Instr; 14] = accumulated!(RESULT, 0;);

pub(crate) static L_MAC_FLAG: [Instr; 15] = accumulated!(RESULT, 4; addi OVERFLOW, ZERO, 1;);

pub(crate) static MAC_CLAMP: [Instr; 14] = accumulated!(T2, 0;);

pub(crate) static MAC_FLAG: [Instr; 15] = accumulated!(T2, 4; addi OVERFLOW, ZERO, 1;);

// The difference, with a clip to 32 bits of twice the product and of the difference. One that is too small without a
// product of 2^30 has a first operand below 0, and takes the words for that product; what is left is too great. The first
// operand is read after the difference is written.
macro_rules! reduced {
    ($difference:ident, $size:literal; $($flag:tt)*) => {
        words![
            mul T0, SECOND, THIRD;
            slli T1, T0, 1;
            sub $difference, FIRST, T1;
            blt T1, ZERO, 8;
            bge FIRST, $difference, 40 + $size;
            bge T0, ZERO, 20;
            blt FIRST, $difference, 32 + $size;
            lui $difference, 0x80000;
            addi $difference, $difference, -1;
            jal ZERO, 20;
            addi T0, T1, -1;
            sub $difference, FIRST, T0;
            bge FIRST, ZERO, 8;
            lui $difference, 0x80000;
            $($flag)*
        ]
    };
}

pub(crate) static L_MSU_CLAMP: [Instr; 14] = reduced!(RESULT, 0;);

pub(crate) static L_MSU_FLAG: [Instr; 15] = reduced!(RESULT, 4; addi OVERFLOW, ZERO, 1;);

pub(crate) static MSU_CLAMP: [Instr; 14] = reduced!(T2, 0;);

pub(crate) static MSU_FLAG: [Instr; 15] = reduced!(T2, 4; addi OVERFLOW, ZERO, 1;);
