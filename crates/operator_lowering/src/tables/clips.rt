// The clips at the end of templates. Where a table has two forms, the hole of its macro takes the word that sets Overflow,
// and its size is what the jumps over the hole have more.

use crate::assembly::words;
use rv_encode::Instr;
use rv_encode::register::{OVERFLOW, T0, ZERO};
use template_runs::registers::RESULT;

// The result, of 32 bits, is clipped to 16 bits: its low half is compared with it.
macro_rules! clip_16 {
    ($size:literal; $($flag:tt)*) => {
        words![
            slli T0, RESULT, 16;
            srai T0, T0, 16;
            beq T0, RESULT, 16 + $size;
            srai T0, T0, 31;
            lui RESULT, 0xffff8;
            xor RESULT, RESULT, T0;
            $($flag)*
        ]
    };
}

pub(crate) static CLIP_16_CLAMP: [Instr; 6] = clip_16!(0;);

pub(crate) static CLIP_16_FLAG: [Instr; 7] = clip_16!(4; addi OVERFLOW, ZERO, 1;);

// The result, from -32768 to 32768, is clipped to 16 bits.
macro_rules! clip_fraction {
    ($size:literal; $($flag:tt)*) => {
        words![
            lui T0, 8;
            bne RESULT, T0, 8 + $size;
            addi RESULT, RESULT, -1;
            $($flag)*
        ]
    };
}

pub(crate) static CLIP_FRACTION_CLAMP: [Instr; 3] = clip_fraction!(0;);

pub(crate) static CLIP_FRACTION_FLAG: [Instr; 4] = clip_fraction!(4; addi OVERFLOW, ZERO, 1;);
