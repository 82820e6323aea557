// From an instruction to its word.

ghost use Rattle.std.specs.Prelude.{◌≡◌, ◌+◌, ◌*◌, ◌/◌, ◌%◌, ◌^◌, ◌<◌, ◌≤◌, IsTrue, ◌↔◌, Some};
ghost use Rattle.rv_encode.specs.Table.{HasNumbers};
ghost use Rattle.rv_encode.specs.Words.{Fits, IsRegister, IsWithin, IsEven, IsInRange, encoded, part, r_word, i_word, s_word, b_word, u_word, j_word, fence_word, word_of};
ghost use Rattle.rv_encode.specs.Decoding.{decoded};

use crate::instruction::Instr;
use crate::row::{Row, row_of};

/// Whether each field of an instruction is in the range of its format.
pub fn fits(instr: Instr) -> bool
    ensures { IsTrue result ↔ Fits instr }
{
    is_in_range(row_of(instr))
}

/// The word of an instruction whose fields are in the ranges of its format.
pub fn encode(instr: Instr) -> u32
    requires { Fits instr }
    ensures word { result ≡ encoded instr }
    ensures back { decoded result ≡ Some instr }
{
    word_of(row_of(instr))
}

fn is_in_range(row: Row) -> bool
    ensures { IsTrue result ↔ IsInRange row }
{
    match row {
        Row::RType(_, _, _, rd, rs1, rs2) => {
            is_register(rd) && is_register(rs1) && is_register(rs2)
        }
        Row::IType(_, _, rd, rs1, imm) => {
            is_register(rd) && is_register(rs1) && is_within(2048, imm)
        }
        Row::ShiftType(_, _, _, rd, rs1, imm) => is_register(rd) && is_register(rs1) && imm < 32,
        Row::SType(_, _, rs1, rs2, imm) => {
            is_register(rs1) && is_register(rs2) && is_within(2048, imm)
        }
        Row::BType(_, _, rs1, rs2, imm) => {
            is_register(rs1) && is_register(rs2) && is_within(4096, imm) && is_even(imm)
        }
        Row::UType(_, rd, imm) => is_register(rd) && imm < 0x10_0000,
        Row::JType(_, rd, imm) => is_register(rd) && is_within(0x10_0000, imm) && is_even(imm),
        Row::FenceType(_, _, fields) => fields < 0x40_0000,
        Row::WholeWord(_) => true,
    }
}

fn is_register(number: u8) -> bool
    ensures { IsTrue result ↔ IsRegister number }
{
    number < 32
}

// This many units on either side of 0.
fn is_within(half: u32, imm: i32) -> bool
    requires { half ≤ 2 ^ 20 }
    ensures { IsTrue result ↔ IsWithin half imm }
{
    let half = half as i32;
    -half <= imm && imm < half
}

fn is_even(imm: i32) -> bool
    ensures { IsTrue result ↔ IsEven imm }
{
    imm.cast_unsigned() % 2 == 0
}

fn word_of(row: Row) -> u32
    requires numbers { HasNumbers row }
    requires fields { IsInRange row }
    ensures { result ≡ word_of row }
{
    match row {
        Row::RType(opcode, funct3, funct7, rd, rs1, rs2) => {
            r_word(opcode, funct3, funct7, rd, rs1, rs2.into())
        }
        Row::IType(opcode, funct3, rd, rs1, imm) => i_word(opcode, funct3, rd, rs1, imm),
        Row::ShiftType(opcode, funct3, funct7, rd, rs1, imm) => {
            r_word(opcode, funct3, funct7, rd, rs1, imm)
        }
        Row::SType(opcode, funct3, rs1, rs2, imm) => s_word(opcode, funct3, rs1, rs2, imm),
        Row::BType(opcode, funct3, rs1, rs2, imm) => b_word(opcode, funct3, rs1, rs2, imm),
        Row::UType(opcode, rd, imm) => u_word(opcode, rd, imm),
        Row::JType(opcode, rd, imm) => j_word(opcode, rd, imm),
        Row::FenceType(opcode, funct3, fields) => fence_word(opcode, funct3, fields),
        Row::WholeWord(word) => word,
    }
}

// `count` bits of an immediate, from the bit `low` on.
fn part(imm: i32, low: u32, count: u32) -> u32
    requires within { low + count ≤ 32 }
    requires some { 0 < count }
    requires less { count < 32 }
    ensures { result ≡ part imm low count }
{
    (imm.cast_unsigned() >> low) % (1 << count)
}

fn r_word(opcode: u32, funct3: u32, funct7: u32, rd: u8, rs1: u8, rs2: u32) -> u32
    requires opcode { opcode < 128 }
    requires funct3 { funct3 < 8 }
    requires funct7 { funct7 < 128 }
    requires rd { IsRegister rd }
    requires rs1 { IsRegister rs1 }
    requires rs2 { IsRegister rs2 }
    ensures { result ≡ r_word opcode funct3 funct7 rd rs1 rs2 }
{
    funct7 * 0x200_0000
        + rs2 * 0x10_0000
        + u32::from(rs1) * 0x8000
        + funct3 * 4096
        + u32::from(rd) * 128
        + opcode
}

fn i_word(opcode: u32, funct3: u32, rd: u8, rs1: u8, imm: i32) -> u32
    requires opcode { opcode < 128 }
    requires funct3 { funct3 < 8 }
    requires rd { IsRegister rd }
    requires rs1 { IsRegister rs1 }
    ensures { result ≡ i_word opcode funct3 rd rs1 imm }
{
    part(imm, 0, 12) * 0x10_0000
        + u32::from(rs1) * 0x8000
        + funct3 * 4096
        + u32::from(rd) * 128
        + opcode
}

fn s_word(opcode: u32, funct3: u32, rs1: u8, rs2: u8, imm: i32) -> u32
    requires opcode { opcode < 128 }
    requires funct3 { funct3 < 8 }
    requires rs1 { IsRegister rs1 }
    requires rs2 { IsRegister rs2 }
    ensures { result ≡ s_word opcode funct3 rs1 rs2 imm }
{
    part(imm, 5, 7) * 0x200_0000
        + u32::from(rs2) * 0x10_0000
        + u32::from(rs1) * 0x8000
        + funct3 * 4096
        + part(imm, 0, 5) * 128
        + opcode
}

fn b_word(opcode: u32, funct3: u32, rs1: u8, rs2: u8, imm: i32) -> u32
    requires opcode { opcode < 128 }
    requires funct3 { funct3 < 8 }
    requires rs1 { IsRegister rs1 }
    requires rs2 { IsRegister rs2 }
    ensures { result ≡ b_word opcode funct3 rs1 rs2 imm }
{
    let upper = part(imm, 12, 1) * 0x8000_0000 + part(imm, 5, 6) * 0x200_0000;
    let lower = part(imm, 1, 4) * 256 + part(imm, 11, 1) * 128;
    upper + u32::from(rs2) * 0x10_0000 + u32::from(rs1) * 0x8000 + funct3 * 4096 + lower + opcode
}

fn u_word(opcode: u32, rd: u8, imm: u32) -> u32
    requires opcode { opcode < 128 }
    requires rd { IsRegister rd }
    requires imm { imm < 2 ^ 20 }
    ensures { result ≡ u_word opcode rd imm }
{
    imm * 4096 + u32::from(rd) * 128 + opcode
}

fn j_word(opcode: u32, rd: u8, imm: i32) -> u32
    requires opcode { opcode < 128 }
    requires rd { IsRegister rd }
    ensures { result ≡ j_word opcode rd imm }
{
    let upper = part(imm, 20, 1) * 0x8000_0000
        + part(imm, 1, 10) * 0x20_0000
        + part(imm, 11, 1) * 0x10_0000;
    upper + part(imm, 12, 8) * 4096 + u32::from(rd) * 128 + opcode
}

fn fence_word(opcode: u32, funct3: u32, fields: u32) -> u32
    requires opcode { opcode < 128 }
    requires funct3 { funct3 < 8 }
    requires fields { fields < 2 ^ 22 }
    ensures { result ≡ fence_word opcode funct3 fields }
{
    fields / 1024 * 0x10_0000
        + fields / 32 % 32 * 0x8000
        + funct3 * 4096
        + fields % 32 * 128
        + opcode
}
