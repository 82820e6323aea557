// One instruction of the machine.

ghost use Rattle.std.specs.Prelude.{◌≡◌, if◌then◌else◌};
ghost use Rattle.rv_encode.specs.Words.{Fits};
ghost use Rattle.rv_encode.specs.Effects.{effect_of};
ghost use Rattle.rv_encode.specs.Runs.{fetched, stepped};
ghost use Rattle.rv_emulator.specs.Steps.{HasEffect};

use crate::arithmetic::{
    flag, is_below, quotient, quotient_unsigned, remainder, remainder_unsigned, shift_amount,
    shifted_left, shifted_right, shifted_right_signed, upper_product, upper_product_mixed,
    upper_product_unsigned,
};
use crate::effects::Step;
use crate::state::Hart;
use rv_encode::{Instr, decode};
use sat_base::MachineFault;

/// Where the code begins.
pub const CODE_START: u32 = 0x0001_0000;

/// Carries out the instruction at the pc.
pub fn carry_out(code: &[u32], state: &mut Hart) -> Step
    ensures { HasEffect result state.old state.new (stepped code.now) }
{
    let Some(word) = fetch(code, state.pc) else {
        return state.fault(MachineFault::Fetch);
    };
    let Some(instr) = decode(word) else {
        return state.fault(MachineFault::Word);
    };
    execute(instr, state)
}

fn fetch(code: &[u32], pc: u32) -> Option<u32>
    ensures { result ≡ fetched code.now pc }
{
    let offset = pc.checked_sub(CODE_START)?;
    code.get(offset as usize / 4).copied()
}

fn execute(instr: Instr, state: &mut Hart) -> Step
    requires { Fits instr }
    ensures { HasEffect result state.old state.new (effect_of instr) }
{
    match instr {
        Instr::Lui { rd, imm } => state.set(rd, (imm << 12).cast_signed()),
        Instr::Auipc { rd, imm } => state.set(rd, state.pc.wrapping_add(imm << 12).cast_signed()),
        Instr::Jal { rd, imm } => state.link(rd, imm),
        Instr::Jalr { rd, rs1, imm } => state.jump_to_register(rd, rs1, imm),
        Instr::Beq { rs1, rs2, imm } => state.branch(state.read(rs1) == state.read(rs2), imm),
        Instr::Bne { rs1, rs2, imm } => state.branch(state.read(rs1) != state.read(rs2), imm),
        Instr::Blt { rs1, rs2, imm } => state.branch(state.read(rs1) < state.read(rs2), imm),
        Instr::Bge { rs1, rs2, imm } => state.branch(state.read(rs1) >= state.read(rs2), imm),
        Instr::Bltu { rs1, rs2, imm } => state.branch(
            is_below(state.read(rs1), state.read(rs2)),
            imm,
        ),
        Instr::Bgeu { rs1, rs2, imm } => state.branch(
            !is_below(state.read(rs1), state.read(rs2)),
            imm,
        ),
        Instr::Lb { rd, rs1, imm } => state.load_byte(rd, state.address(rs1, imm), true),
        Instr::Lh { rd, rs1, imm } => state.load_half(rd, state.address(rs1, imm), true),
        Instr::Lw { rd, rs1, imm } => state.load(rd, state.address(rs1, imm)),
        Instr::Lbu { rd, rs1, imm } => state.load_byte(rd, state.address(rs1, imm), false),
        Instr::Lhu { rd, rs1, imm } => state.load_half(rd, state.address(rs1, imm), false),
        Instr::Sb { rs1, rs2, imm } => state.store_byte(state.address(rs1, imm), state.read(rs2)),
        Instr::Sh { rs1, rs2, imm } => state.store_half(state.address(rs1, imm), state.read(rs2)),
        Instr::Sw { rs1, rs2, imm } => state.store(state.address(rs1, imm), state.read(rs2)),
        Instr::Addi { rd, rs1, imm } => state.set(rd, state.read(rs1).wrapping_add(imm)),
        Instr::Slti { rd, rs1, imm } => state.set(rd, flag(state.read(rs1) < imm)),
        Instr::Sltiu { rd, rs1, imm } => state.set(rd, flag(is_below(state.read(rs1), imm))),
        Instr::Xori { rd, rs1, imm } => state.set(rd, state.read(rs1) ^ imm),
        Instr::Ori { rd, rs1, imm } => state.set(rd, state.read(rs1) | imm),
        Instr::Andi { rd, rs1, imm } => state.set(rd, state.read(rs1) & imm),
        Instr::Slli { rd, rs1, imm } => state.set(rd, shifted_left(state.read(rs1), imm)),
        Instr::Srli { rd, rs1, imm } => state.set(rd, shifted_right(state.read(rs1), imm)),
        Instr::Srai { rd, rs1, imm } => state.set(rd, shifted_right_signed(state.read(rs1), imm)),
        Instr::Add { rd, rs1, rs2 } => state.set(rd, state.read(rs1).wrapping_add(state.read(rs2))),
        Instr::Sll { rd, rs1, rs2 } => state.set(
            rd,
            shifted_left(state.read(rs1), shift_amount(state.read(rs2))),
        ),
        Instr::Slt { rd, rs1, rs2 } => state.set(rd, flag(state.read(rs1) < state.read(rs2))),
        Instr::Sltu { rd, rs1, rs2 } => state.set(
            rd,
            flag(is_below(state.read(rs1), state.read(rs2))),
        ),
        Instr::Xor { rd, rs1, rs2 } => state.set(rd, state.read(rs1) ^ state.read(rs2)),
        Instr::Srl { rd, rs1, rs2 } => state.set(
            rd,
            shifted_right(state.read(rs1), shift_amount(state.read(rs2))),
        ),
        Instr::Or { rd, rs1, rs2 } => state.set(rd, state.read(rs1) | state.read(rs2)),
        Instr::And { rd, rs1, rs2 } => state.set(rd, state.read(rs1) & state.read(rs2)),
        Instr::Sub { rd, rs1, rs2 } => state.set(rd, state.read(rs1).wrapping_sub(state.read(rs2))),
        Instr::Sra { rd, rs1, rs2 } => state.set(
            rd,
            shifted_right_signed(state.read(rs1), shift_amount(state.read(rs2))),
        ),
        Instr::Mul { rd, rs1, rs2 } => state.set(rd, state.read(rs1).wrapping_mul(state.read(rs2))),
        Instr::Mulh { rd, rs1, rs2 } => state.set(
            rd,
            upper_product(state.read(rs1), state.read(rs2)),
        ),
        Instr::Mulhsu { rd, rs1, rs2 } => state.set(
            rd,
            upper_product_mixed(state.read(rs1), state.read(rs2)),
        ),
        Instr::Mulhu { rd, rs1, rs2 } => state.set(
            rd,
            upper_product_unsigned(state.read(rs1), state.read(rs2)),
        ),
        Instr::Div { rd, rs1, rs2 } => state.set(rd, quotient(state.read(rs1), state.read(rs2))),
        Instr::Divu { rd, rs1, rs2 } => state.set(
            rd,
            quotient_unsigned(state.read(rs1), state.read(rs2)),
        ),
        Instr::Rem { rd, rs1, rs2 } => state.set(rd, remainder(state.read(rs1), state.read(rs2))),
        Instr::Remu { rd, rs1, rs2 } => state.set(
            rd,
            remainder_unsigned(state.read(rs1), state.read(rs2)),
        ),
        Instr::Fence { .. } => state.proceed(),
        Instr::Ecall => state.call(),
        Instr::Ebreak => state.fault(MachineFault::Break),
    }
}
