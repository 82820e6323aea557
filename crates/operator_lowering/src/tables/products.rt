// Products and quotients.

use crate::assembly::words;
use rv_encode::Instr;
use rv_encode::register::{OVERFLOW, T0, T1, ZERO};
use template_runs::registers::{FIRST, RESULT, SECOND};

// The product, modulo 2^32.
pub(crate) static PRODUCT: [Instr; 1] = words![mul RESULT, FIRST, SECOND];

// The product of fractions of 16 bits, which is 32768 at most.
pub(crate) static MULT: [Instr; 2] = words![mul RESULT, FIRST, SECOND; srai RESULT, RESULT, 15];

// The same, rounded.
pub(crate) static MULT_R: [Instr; 4] = words![
    mul RESULT, FIRST, SECOND;
    srai RESULT, RESULT, 14;
    addi RESULT, RESULT, 1;
    srai RESULT, RESULT, 1;
];

// Twice the product.
pub(crate) static L_MULT_PLAIN: [Instr; 2] =
    words![mul RESULT, FIRST, SECOND; slli RESULT, RESULT, 1];

// The same, clipped to 32 bits: of a product that is not negative, twice it is negative where it is 2^31.
macro_rules! l_mult {
    ($size:literal; $($flag:tt)*) => {
        words![
            mul T0, FIRST, SECOND;
            slli RESULT, T0, 1;
            bge RESULT, ZERO, 12 + $size;
            blt T0, ZERO, 8 + $size;
            addi RESULT, RESULT, -1;
            $($flag)*
        ]
    };
}

pub(crate) static L_MULT_CLAMP: [Instr; 5] = l_mult!(0;);

pub(crate) static L_MULT_FLAG: [Instr; 6] = l_mult!(4; addi OVERFLOW, ZERO, 1;);

// The quotient of a valid pair, which is 32767 where it would be 32768.
pub(crate) static DIVIDE: [Instr; 4] = words![
    slli T0, FIRST, 15;
    div T0, T0, SECOND;
    srli T1, T0, 15;
    sub RESULT, T0, T1;
];
