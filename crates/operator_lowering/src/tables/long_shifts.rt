// Shifts of numbers of 32 bits, with their clips. A count of 32 or more shifts out all but 0: the product is then taken as
// 0, and kept where the operand is 0.

use crate::assembly::words;
use rv_encode::Instr;
use rv_encode::register::{OVERFLOW, T0, T1, T2, T4, ZERO};
use template_runs::registers::{FIRST, RESULT, SECOND};

// Words that shift an operand to the left, of which the last passes over the next one where the count is below 32; the clip
// to 32 bits, which finds whether the shift back by the count gives the operand, with a hole; and words that follow, past
// which those that keep the number jump.
macro_rules! clipped {
    ([$($before:tt)*] $operand:ident, $count:ident, $past:expr; $($after:tt)*) => {
        words![
            $($before)*
            addi RESULT, ZERO, 0;
            sra T1, RESULT, $count;
            beq T1, $operand, 20 + $past;
            srai T0, $operand, 31;
            lui RESULT, 0x80000;
            addi RESULT, RESULT, -1;
            xor RESULT, RESULT, T0;
            $($after)*
        ]
    };
}

// To the left, or to the right by at most 31. The operands are read after the result is written.
macro_rules! l_shl {
    ($size:literal; $($flag:tt)*) => {
        clipped!(
            [
                sltiu T0, SECOND, 32;
                sll RESULT, FIRST, SECOND;
                bne T0, ZERO, 12;
                blt SECOND, ZERO, 36 + $size;
            ]
            FIRST, SECOND, 24 + $size;
            $($flag)*
            jal ZERO, 24;
            sub T0, ZERO, SECOND;
            addi T1, ZERO, 31;
            bgeu T1, T0, 8;
            addi T0, ZERO, 31;
            sra RESULT, FIRST, T0;
        )
    };
}

pub(crate) static L_SHL_CLAMP: [Instr; 17] = l_shl!(0;);

pub(crate) static L_SHL_FLAG: [Instr; 18] = l_shl!(4; addi OVERFLOW, ZERO, 1;);

// To the right by at most 31, or to the left.
macro_rules! l_shr {
    ($size:literal; $($flag:tt)*) => {
        clipped!(
            [
                sltiu T0, SECOND, 32;
                bne T0, ZERO, 68 + $size;
                blt SECOND, ZERO, 12;
                srai RESULT, FIRST, 31;
                jal ZERO, 60 + $size;
                sub T2, ZERO, SECOND;
                sltiu T0, T2, 32;
                addi T4, FIRST, 0;
                sll RESULT, FIRST, T2;
                bne T0, ZERO, 8;
            ]
            T4, T2, 8 + $size;
            $($flag)*
            jal ZERO, 8;
            sra RESULT, FIRST, SECOND;
        )
    };
}

pub(crate) static L_SHR_CLAMP: [Instr; 19] = l_shr!(0;);

pub(crate) static L_SHR_FLAG: [Instr; 20] = l_shr!(4; addi OVERFLOW, ZERO, 1;);

// To the right, rounded, or to the left.
macro_rules! l_shr_r {
    ($size:literal; $($flag:tt)*) => {
        clipped!(
            [
                blt ZERO, SECOND, 56 + $size;
                sub T2, ZERO, SECOND;
                sltiu T0, T2, 32;
                addi T4, FIRST, 0;
                sll RESULT, FIRST, T2;
                bne T0, ZERO, 8;
            ]
            T4, T2, 36 + $size;
            $($flag)*
            jal ZERO, 36;
            addi T0, SECOND, -1;
            sltiu T1, T0, 32;
            bne T1, ZERO, 8;
            addi T0, ZERO, 31;
            sra T0, FIRST, T0;
            andi T1, T0, 1;
            srai T0, T0, 1;
            add RESULT, T0, T1;
        )
    };
}

pub(crate) static L_SHR_R_CLAMP: [Instr; 22] = l_shr_r!(0;);

pub(crate) static L_SHR_R_FLAG: [Instr; 23] = l_shr_r!(4; addi OVERFLOW, ZERO, 1;);
