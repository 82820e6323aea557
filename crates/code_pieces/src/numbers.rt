// Numbers in registers, and weights in the count.

ghost use Rattle.std.specs.Prelude.{◌≡◌, ◌+◌, ◌/◌, ◌%◌, ◌^◌, pos, IfOk, OnOk};
ghost use Rattle.std.specs.Int.{w32, cast_unsigned};
ghost use Rattle.code_lines.specs.Pieces.{count_code, count_line, flush_code, is_near, lower_of, number_code, number_line, upper_of};
ghost use Rattle.code_pieces.specs.Pieces.{Extends};

use crate::code::Code;
use rv_encode::Instr;
use rv_encode::register::{COUNT, COUNT_UPPER, T0, T1, ZERO};
use sat_base::Memory;

/// Whether a number fits in the immediate field of an instruction.
fn is_near(number: i32) -> bool
    ensures { result ≡ is_near number }
{
    (-2048..=2047).contains(&number)
}

/// The upper 20 bits of a number, so that what is left for a second instruction is near.
pub fn upper_of(number: i32) -> u32
    ensures { result ≡ upper_of number }
{
    let bits = u64::from(number.cast_unsigned());
    ((bits + 2048) / 4096 % 1_048_576) as u32
}

/// What is left.
pub fn lower_of(number: i32) -> i32
    ensures { result ≡ lower_of number }
{
    let bits = u64::from(number.cast_unsigned());
    ((bits + 2048) % 4096) as i32 - 2048
}

/// A number of 31 bits as a signed one. Memory is answered of a greater one; no weight of a source is so great, and no code
/// is so long.
pub fn signed(number: u32) -> Result<i32, Memory>
    ensures { IfOk result (λ signed. signed ≡ pos number) }
{
    match i32::try_from(number) {
        Ok(signed) => Ok(signed),
        Err(_) => Err(Memory),
    }
}

impl Code {
    /// A number into a register.
    pub fn push_number(&mut self, rd: u8, number: i32) -> Result<(), Memory>
        ensures { OnOk result (Extends self.old self.new (number_code rd number)) }
    {
        self.push_number_line(is_near(number), rd, number)
    }

    fn push_number_line(&mut self, near: bool, rd: u8, number: i32) -> Result<(), Memory>
        ensures { OnOk result (Extends self.old self.new (number_line near rd number)) }
    {
        if near {
            self.push_own(Instr::Addi {
                rd,
                rs1: ZERO,
                imm: number,
            })
        } else {
            self.push_own(Instr::Lui {
                rd,
                imm: upper_of(number),
            })?;
            self.push_own(Instr::Addi {
                rd,
                rs1: rd,
                imm: lower_of(number),
            })
        }
    }

    /// A weight into the count of 64 bits.
    fn push_count(&mut self, weight: u32) -> Result<(), Memory>
        ensures { OnOk result (Extends self.old self.new (count_code weight)) }
    {
        if weight < 2048 {
            let imm = signed(weight)?;
            self.push_own(Instr::Addi {
                rd: COUNT,
                rs1: COUNT,
                imm,
            })?;
            self.push_own(Instr::Sltiu {
                rd: T0,
                rs1: COUNT,
                imm,
            })?;
        } else {
            self.push_number(T1, signed(weight)?)?;
            self.push_own(Instr::Add {
                rd: COUNT,
                rs1: COUNT,
                rs2: T1,
            })?;
            self.push_own(Instr::Sltu {
                rd: T0,
                rs1: COUNT,
                rs2: T1,
            })?;
        }
        self.push_own(Instr::Add {
            rd: COUNT_UPPER,
            rs1: COUNT_UPPER,
            rs2: T0,
        })
    }

    /// The weight by which the count lags behind into the count, if there is any.
    pub fn push_flush(&mut self, weight: u32) -> Result<(), Memory>
        ensures { OnOk result (Extends self.old self.new (flush_code weight)) }
    {
        if weight == 0 {
            return Ok(());
        }
        self.push_count(weight)
    }
}
