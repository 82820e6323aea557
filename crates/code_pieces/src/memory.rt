// Words of the data memory, by their offsets in bytes.

ghost use Rattle.std.specs.Prelude.{◌≡◌, ◌+◌, pos, IfOk, OnOk};
ghost use Rattle.rv_encode.specs.State.{data_start};
ghost use Rattle.code_memory.specs.Memory.{load_code, store_code};
ghost use Rattle.code_pieces.specs.Pieces.{Extends};

use crate::code::Code;
use crate::numbers::{lower_of, upper_of};
use rv_encode::Instr;
use rv_encode::register::T0;
use sat_base::Memory;

/// The register that points into the data memory.
pub const BASE: u8 = 3;

/// How far behind the beginning of the data memory it points.
pub const BASE_OFFSET: i32 = 2048;

/// The address at which the data memory begins.
const DATA_START: i64 = 0x1000_0000;

/// The address of a word by its offset.
fn address_of(slot: u32) -> Result<i32, Memory>
    ensures { IfOk result (λ address. address ≡ pos (data_start + slot)) }
{
    match i32::try_from(DATA_START + i64::from(slot)) {
        Ok(address) => Ok(address),
        Err(_) => Err(Memory),
    }
}

impl Code {
    /// The word at an offset into a register.
    pub fn push_load(&mut self, rd: u8, slot: u32) -> Result<(), Memory>
        ensures { OnOk result (Extends self.old self.new (load_code rd slot)) }
    {
        if slot < 4096 {
            let imm = slot as i32 - BASE_OFFSET;
            return self.push_own(Instr::Lw { rd, rs1: BASE, imm });
        }
        let address = address_of(slot)?;
        self.push_own(Instr::Lui {
            rd: T0,
            imm: upper_of(address),
        })?;
        self.push_own(Instr::Lw {
            rd,
            rs1: T0,
            imm: lower_of(address),
        })
    }

    /// A register into the word at an offset.
    pub fn push_store(&mut self, rs: u8, slot: u32) -> Result<(), Memory>
        ensures { OnOk result (Extends self.old self.new (store_code rs slot)) }
    {
        if slot < 4096 {
            let imm = slot as i32 - BASE_OFFSET;
            return self.push_own(Instr::Sw {
                rs1: BASE,
                rs2: rs,
                imm,
            });
        }
        let address = address_of(slot)?;
        self.push_own(Instr::Lui {
            rd: T0,
            imm: upper_of(address),
        })?;
        self.push_own(Instr::Sw {
            rs1: T0,
            rs2: rs,
            imm: lower_of(address),
        })
    }
}
