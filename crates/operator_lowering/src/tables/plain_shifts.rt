// Shifts that no clip changes.

use crate::assembly::words;
use rv_encode::Instr;
use rv_encode::register::{T0, T1, T2, ZERO};
use template_runs::registers::{FIRST, RESULT, SECOND};

// To the left, or to the right by at most 31.
pub(crate) static SHL_PLAIN: [Instr; 8] = words![
    bge SECOND, ZERO, 28;
    sub T0, ZERO, SECOND;
    addi T1, ZERO, 31;
    bgeu T1, T0, 8;
    addi T0, ZERO, 31;
    sra RESULT, FIRST, T0;
    jal ZERO, 8;
    sll RESULT, FIRST, SECOND;
];

// To the right by at most 31, or to the left.
pub(crate) static SHR_PLAIN: [Instr; 9] = words![
    sltiu T0, SECOND, 32;
    bne T0, ZERO, 28;
    blt SECOND, ZERO, 12;
    srai RESULT, FIRST, 31;
    jal ZERO, 20;
    sub T2, ZERO, SECOND;
    sll RESULT, FIRST, T2;
    jal ZERO, 8;
    sra RESULT, FIRST, SECOND;
];

// To the right by one less, and halved with what rounds, or to the left.
macro_rules! rounded {
    ($past:literal; $($half:tt)*) => {
        words![
            blt ZERO, SECOND, 16;
            sub T2, ZERO, SECOND;
            sll RESULT, FIRST, T2;
            jal ZERO, 24 + $past;
            addi T0, SECOND, -1;
            sltiu T1, T0, 32;
            bne T1, ZERO, 8;
            addi T0, ZERO, 31;
            sra T0, FIRST, T0;
            $($half)*
        ]
    };
}

pub(crate) static SHR_R_PLAIN: [Instr; 11] = rounded!(8; addi T0, T0, 1; srai RESULT, T0, 1;);

pub(crate) static L_SHR_R_PLAIN: [Instr; 12] =
    rounded!(12; andi T1, T0, 1; srai T0, T0, 1; add RESULT, T0, T1;);
