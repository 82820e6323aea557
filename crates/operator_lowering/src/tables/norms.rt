// Norms.

use crate::assembly::words;
use rv_encode::Instr;
use rv_encode::register::{T0, T1, T6, ZERO};
use template_runs::registers::{FIRST, RESULT};

// The places by which an operand can be shifted to the left: none of 0, all of -1, and of others one less than it takes to
// bring the magnitude into the upper half, found by halves. A pair has the shift that tells whether a magnitude is above
// its half, and by how much it is shifted else.
macro_rules! norm {
    ($all:literal, $end:literal, $top:literal, $(($above:literal, $by:literal)),+) => {
        words![
            srai T0, FIRST, 31;
            xor T0, FIRST, T0;
            andi RESULT, FIRST, $all;
            beq T0, ZERO, $end;
            addi T6, ZERO, 1;
            $(
                srli T1, T0, $above;
                bne T1, ZERO, 12;
                slli T0, T0, $by;
                addi T6, T6, $by;
            )+
            srli T1, T0, $top;
            sub RESULT, T6, T1;
        ]
    };
}

pub(crate) static NORM_S: [Instr; 19] = norm!(15, 64, 14, (7, 8), (11, 4), (13, 2));

pub(crate) static NORM_L: [Instr; 23] = norm!(31, 80, 30, (15, 16), (23, 8), (27, 4), (29, 2));
