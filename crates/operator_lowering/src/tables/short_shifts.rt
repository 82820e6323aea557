// Shifts of numbers of 16 bits, with their clips. A count of 16 or more shifts out all but 0: a shift by 16 then does the
// same.

use crate::assembly::words;
use rv_encode::Instr;
use rv_encode::register::{OVERFLOW, T0, T1, T2, ZERO};
use template_runs::registers::{FIRST, RESULT, SECOND};

// Words that shift an operand to the left into T1, of which the last passes over the next one where the count is below 16;
// the clip to 16 bits, with a hole; and words that follow, past which those that keep the number jump.
macro_rules! clipped {
    ([$($before:tt)*] $past:expr; $($after:tt)*) => {
        words![
            $($before)*
            slli T1, FIRST, 16;
            slli T0, T1, 16;
            srai RESULT, T0, 16;
            beq RESULT, T1, 20 + $past;
            srai T0, T1, 31;
            lui RESULT, 8;
            addi RESULT, RESULT, -1;
            xor RESULT, RESULT, T0;
            $($after)*
        ]
    };
}

// To the left, or to the right by at most 31.
macro_rules! shl {
    ($size:literal; $($flag:tt)*) => {
        clipped!(
            [
                sltiu T0, SECOND, 16;
                sll T1, FIRST, SECOND;
                bne T0, ZERO, 12;
                blt SECOND, ZERO, 40 + $size;
            ]
            24 + $size;
            $($flag)*
            jal ZERO, 24;
            sub T0, ZERO, SECOND;
            addi T1, ZERO, 31;
            bgeu T1, T0, 8;
            addi T0, ZERO, 31;
            sra RESULT, FIRST, T0;
        )
    };
}

pub(crate) static SHL_CLAMP: [Instr; 18] = shl!(0;);

pub(crate) static SHL_FLAG: [Instr; 19] = shl!(4; addi OVERFLOW, ZERO, 1;);

// To the right by at most 31, or to the left.
macro_rules! shr {
    ($size:literal; $($flag:tt)*) => {
        clipped!(
            [
                sltiu T0, SECOND, 32;
                bne T0, ZERO, 68 + $size;
                blt SECOND, ZERO, 12;
                srai RESULT, FIRST, 31;
                jal ZERO, 60 + $size;
                sub T2, ZERO, SECOND;
                sltiu T0, T2, 16;
                sll T1, FIRST, T2;
                bne T0, ZERO, 8;
            ]
            8 + $size;
            $($flag)*
            jal ZERO, 8;
            sra RESULT, FIRST, SECOND;
        )
    };
}

pub(crate) static SHR_CLAMP: [Instr; 19] = shr!(0;);

pub(crate) static SHR_FLAG: [Instr; 20] = shr!(4; addi OVERFLOW, ZERO, 1;);

// To the right, rounded, or to the left.
macro_rules! shr_r {
    ($size:literal; $($flag:tt)*) => {
        clipped!(
            [
                blt ZERO, SECOND, 56 + $size;
                sub T2, ZERO, SECOND;
                sltiu T0, T2, 16;
                sll T1, FIRST, T2;
                bne T0, ZERO, 8;
            ]
            32 + $size;
            $($flag)*
            jal ZERO, 32;
            addi T0, SECOND, -1;
            sltiu T1, T0, 32;
            bne T1, ZERO, 8;
            addi T0, ZERO, 31;
            sra T0, FIRST, T0;
            addi T0, T0, 1;
            srai RESULT, T0, 1;
        )
    };
}

pub(crate) static SHR_R_CLAMP: [Instr; 21] = shr_r!(0;);

pub(crate) static SHR_R_FLAG: [Instr; 22] = shr_r!(4; addi OVERFLOW, ZERO, 1;);
