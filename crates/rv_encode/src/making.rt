// Instructions, made from their fields.

ghost use Rattle.std.specs.Prelude.{◌≡◌};

use crate::instruction::Instr;

impl Instr {
    pub fn lui(rd: u8, imm: u32) -> Instr
        ensures { result ≡ Instr.Lui rd imm }
    {
        Instr::Lui { rd, imm }
    }

    pub fn auipc(rd: u8, imm: u32) -> Instr
        ensures { result ≡ Instr.Auipc rd imm }
    {
        Instr::Auipc { rd, imm }
    }

    pub fn jal(rd: u8, imm: i32) -> Instr
        ensures { result ≡ Instr.Jal rd imm }
    {
        Instr::Jal { rd, imm }
    }

    pub fn jalr(rd: u8, rs1: u8, imm: i32) -> Instr
        ensures { result ≡ Instr.Jalr rd rs1 imm }
    {
        Instr::Jalr { rd, rs1, imm }
    }

    pub fn beq(rs1: u8, rs2: u8, imm: i32) -> Instr
        ensures { result ≡ Instr.Beq rs1 rs2 imm }
    {
        Instr::Beq { rs1, rs2, imm }
    }

    pub fn bne(rs1: u8, rs2: u8, imm: i32) -> Instr
        ensures { result ≡ Instr.Bne rs1 rs2 imm }
    {
        Instr::Bne { rs1, rs2, imm }
    }

    pub fn blt(rs1: u8, rs2: u8, imm: i32) -> Instr
        ensures { result ≡ Instr.Blt rs1 rs2 imm }
    {
        Instr::Blt { rs1, rs2, imm }
    }

    pub fn bge(rs1: u8, rs2: u8, imm: i32) -> Instr
        ensures { result ≡ Instr.Bge rs1 rs2 imm }
    {
        Instr::Bge { rs1, rs2, imm }
    }

    pub fn bltu(rs1: u8, rs2: u8, imm: i32) -> Instr
        ensures { result ≡ Instr.Bltu rs1 rs2 imm }
    {
        Instr::Bltu { rs1, rs2, imm }
    }

    pub fn bgeu(rs1: u8, rs2: u8, imm: i32) -> Instr
        ensures { result ≡ Instr.Bgeu rs1 rs2 imm }
    {
        Instr::Bgeu { rs1, rs2, imm }
    }

    pub fn lb(rd: u8, rs1: u8, imm: i32) -> Instr
        ensures { result ≡ Instr.Lb rd rs1 imm }
    {
        Instr::Lb { rd, rs1, imm }
    }

    pub fn lh(rd: u8, rs1: u8, imm: i32) -> Instr
        ensures { result ≡ Instr.Lh rd rs1 imm }
    {
        Instr::Lh { rd, rs1, imm }
    }

    pub fn lw(rd: u8, rs1: u8, imm: i32) -> Instr
        ensures { result ≡ Instr.Lw rd rs1 imm }
    {
        Instr::Lw { rd, rs1, imm }
    }

    pub fn lbu(rd: u8, rs1: u8, imm: i32) -> Instr
        ensures { result ≡ Instr.Lbu rd rs1 imm }
    {
        Instr::Lbu { rd, rs1, imm }
    }

    pub fn lhu(rd: u8, rs1: u8, imm: i32) -> Instr
        ensures { result ≡ Instr.Lhu rd rs1 imm }
    {
        Instr::Lhu { rd, rs1, imm }
    }

    pub fn sb(rs1: u8, rs2: u8, imm: i32) -> Instr
        ensures { result ≡ Instr.Sb rs1 rs2 imm }
    {
        Instr::Sb { rs1, rs2, imm }
    }

    pub fn sh(rs1: u8, rs2: u8, imm: i32) -> Instr
        ensures { result ≡ Instr.Sh rs1 rs2 imm }
    {
        Instr::Sh { rs1, rs2, imm }
    }

    pub fn sw(rs1: u8, rs2: u8, imm: i32) -> Instr
        ensures { result ≡ Instr.Sw rs1 rs2 imm }
    {
        Instr::Sw { rs1, rs2, imm }
    }

    pub fn addi(rd: u8, rs1: u8, imm: i32) -> Instr
        ensures { result ≡ Instr.Addi rd rs1 imm }
    {
        Instr::Addi { rd, rs1, imm }
    }

    pub fn slti(rd: u8, rs1: u8, imm: i32) -> Instr
        ensures { result ≡ Instr.Slti rd rs1 imm }
    {
        Instr::Slti { rd, rs1, imm }
    }

    pub fn sltiu(rd: u8, rs1: u8, imm: i32) -> Instr
        ensures { result ≡ Instr.Sltiu rd rs1 imm }
    {
        Instr::Sltiu { rd, rs1, imm }
    }

    pub fn xori(rd: u8, rs1: u8, imm: i32) -> Instr
        ensures { result ≡ Instr.Xori rd rs1 imm }
    {
        Instr::Xori { rd, rs1, imm }
    }

    pub fn ori(rd: u8, rs1: u8, imm: i32) -> Instr
        ensures { result ≡ Instr.Ori rd rs1 imm }
    {
        Instr::Ori { rd, rs1, imm }
    }

    pub fn andi(rd: u8, rs1: u8, imm: i32) -> Instr
        ensures { result ≡ Instr.Andi rd rs1 imm }
    {
        Instr::Andi { rd, rs1, imm }
    }

    pub fn slli(rd: u8, rs1: u8, imm: u32) -> Instr
        ensures { result ≡ Instr.Slli rd rs1 imm }
    {
        Instr::Slli { rd, rs1, imm }
    }

    pub fn srli(rd: u8, rs1: u8, imm: u32) -> Instr
        ensures { result ≡ Instr.Srli rd rs1 imm }
    {
        Instr::Srli { rd, rs1, imm }
    }

    pub fn srai(rd: u8, rs1: u8, imm: u32) -> Instr
        ensures { result ≡ Instr.Srai rd rs1 imm }
    {
        Instr::Srai { rd, rs1, imm }
    }

    pub fn add(rd: u8, rs1: u8, rs2: u8) -> Instr
        ensures { result ≡ Instr.Add rd rs1 rs2 }
    {
        Instr::Add { rd, rs1, rs2 }
    }

    pub fn sll(rd: u8, rs1: u8, rs2: u8) -> Instr
        ensures { result ≡ Instr.Sll rd rs1 rs2 }
    {
        Instr::Sll { rd, rs1, rs2 }
    }

    pub fn slt(rd: u8, rs1: u8, rs2: u8) -> Instr
        ensures { result ≡ Instr.Slt rd rs1 rs2 }
    {
        Instr::Slt { rd, rs1, rs2 }
    }

    pub fn sltu(rd: u8, rs1: u8, rs2: u8) -> Instr
        ensures { result ≡ Instr.Sltu rd rs1 rs2 }
    {
        Instr::Sltu { rd, rs1, rs2 }
    }

    pub fn xor(rd: u8, rs1: u8, rs2: u8) -> Instr
        ensures { result ≡ Instr.Xor rd rs1 rs2 }
    {
        Instr::Xor { rd, rs1, rs2 }
    }

    pub fn srl(rd: u8, rs1: u8, rs2: u8) -> Instr
        ensures { result ≡ Instr.Srl rd rs1 rs2 }
    {
        Instr::Srl { rd, rs1, rs2 }
    }

    pub fn or(rd: u8, rs1: u8, rs2: u8) -> Instr
        ensures { result ≡ Instr.Or rd rs1 rs2 }
    {
        Instr::Or { rd, rs1, rs2 }
    }

    pub fn and(rd: u8, rs1: u8, rs2: u8) -> Instr
        ensures { result ≡ Instr.And rd rs1 rs2 }
    {
        Instr::And { rd, rs1, rs2 }
    }

    pub fn sub(rd: u8, rs1: u8, rs2: u8) -> Instr
        ensures { result ≡ Instr.Sub rd rs1 rs2 }
    {
        Instr::Sub { rd, rs1, rs2 }
    }

    pub fn sra(rd: u8, rs1: u8, rs2: u8) -> Instr
        ensures { result ≡ Instr.Sra rd rs1 rs2 }
    {
        Instr::Sra { rd, rs1, rs2 }
    }

    pub fn mul(rd: u8, rs1: u8, rs2: u8) -> Instr
        ensures { result ≡ Instr.Mul rd rs1 rs2 }
    {
        Instr::Mul { rd, rs1, rs2 }
    }

    pub fn mulh(rd: u8, rs1: u8, rs2: u8) -> Instr
        ensures { result ≡ Instr.Mulh rd rs1 rs2 }
    {
        Instr::Mulh { rd, rs1, rs2 }
    }

    pub fn mulhsu(rd: u8, rs1: u8, rs2: u8) -> Instr
        ensures { result ≡ Instr.Mulhsu rd rs1 rs2 }
    {
        Instr::Mulhsu { rd, rs1, rs2 }
    }

    pub fn mulhu(rd: u8, rs1: u8, rs2: u8) -> Instr
        ensures { result ≡ Instr.Mulhu rd rs1 rs2 }
    {
        Instr::Mulhu { rd, rs1, rs2 }
    }

    pub fn div(rd: u8, rs1: u8, rs2: u8) -> Instr
        ensures { result ≡ Instr.Div rd rs1 rs2 }
    {
        Instr::Div { rd, rs1, rs2 }
    }

    pub fn divu(rd: u8, rs1: u8, rs2: u8) -> Instr
        ensures { result ≡ Instr.Divu rd rs1 rs2 }
    {
        Instr::Divu { rd, rs1, rs2 }
    }

    pub fn rem(rd: u8, rs1: u8, rs2: u8) -> Instr
        ensures { result ≡ Instr.Rem rd rs1 rs2 }
    {
        Instr::Rem { rd, rs1, rs2 }
    }

    pub fn remu(rd: u8, rs1: u8, rs2: u8) -> Instr
        ensures { result ≡ Instr.Remu rd rs1 rs2 }
    {
        Instr::Remu { rd, rs1, rs2 }
    }
}
