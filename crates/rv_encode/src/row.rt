// The table of instructions.

ghost use Rattle.std.specs.Prelude.{◌≡◌};
ghost use Rattle.rv_encode.specs.Table.{row_of, HasNumbers};

use crate::instruction::Instr;

/// A row of the table, with the fields of an instruction. A variant is a format, and begins with what its
/// words have in common: the opcode, and then funct3 and funct7 where the format has them (RISC-V
/// unprivileged specification, instruction formats).
#[derive(Clone, Copy, Debug)]
pub enum Row {
    /// opcode, funct3, funct7; rd, rs1, rs2
    RType(u32, u32, u32, u8, u8, u8),
    /// opcode, funct3; rd, rs1, and an immediate of 12 bits
    IType(u32, u32, u8, u8, i32),
    /// opcode, funct3, funct7; rd, rs1, and an amount of 5 bits
    ShiftType(u32, u32, u32, u8, u8, u32),
    /// opcode, funct3; rs1, rs2, and an immediate of 12 bits
    SType(u32, u32, u8, u8, i32),
    /// opcode, funct3; rs1, rs2, and an even immediate of 13 bits
    BType(u32, u32, u8, u8, i32),
    /// opcode; rd, and the upper 20 bits
    UType(u32, u8, u32),
    /// opcode; rd, and an even immediate of 21 bits
    JType(u32, u8, i32),
    /// opcode, funct3; all other 22 bits
    FenceType(u32, u32, u32),
    /// the whole word
    WholeWord(u32),
}

/// The row of an instruction.
pub fn row_of(instr: Instr) -> Row
    ensures value { result ≡ row_of instr }
    ensures numbers { HasNumbers result }
{
    match instr {
        Instr::Lui { rd, imm } => Row::UType(0b011_0111, rd, imm),
        Instr::Auipc { rd, imm } => Row::UType(0b001_0111, rd, imm),
        Instr::Jal { rd, imm } => Row::JType(0b110_1111, rd, imm),
        Instr::Jalr { rd, rs1, imm } => Row::IType(0b110_0111, 0b000, rd, rs1, imm),
        Instr::Beq { rs1, rs2, imm } => Row::BType(0b110_0011, 0b000, rs1, rs2, imm),
        Instr::Bne { rs1, rs2, imm } => Row::BType(0b110_0011, 0b001, rs1, rs2, imm),
        Instr::Blt { rs1, rs2, imm } => Row::BType(0b110_0011, 0b100, rs1, rs2, imm),
        Instr::Bge { rs1, rs2, imm } => Row::BType(0b110_0011, 0b101, rs1, rs2, imm),
        Instr::Bltu { rs1, rs2, imm } => Row::BType(0b110_0011, 0b110, rs1, rs2, imm),
        Instr::Bgeu { rs1, rs2, imm } => Row::BType(0b110_0011, 0b111, rs1, rs2, imm),
        Instr::Lb { rd, rs1, imm } => Row::IType(0b000_0011, 0b000, rd, rs1, imm),
        Instr::Lh { rd, rs1, imm } => Row::IType(0b000_0011, 0b001, rd, rs1, imm),
        Instr::Lw { rd, rs1, imm } => Row::IType(0b000_0011, 0b010, rd, rs1, imm),
        Instr::Lbu { rd, rs1, imm } => Row::IType(0b000_0011, 0b100, rd, rs1, imm),
        Instr::Lhu { rd, rs1, imm } => Row::IType(0b000_0011, 0b101, rd, rs1, imm),
        Instr::Sb { rs1, rs2, imm } => Row::SType(0b010_0011, 0b000, rs1, rs2, imm),
        Instr::Sh { rs1, rs2, imm } => Row::SType(0b010_0011, 0b001, rs1, rs2, imm),
        Instr::Sw { rs1, rs2, imm } => Row::SType(0b010_0011, 0b010, rs1, rs2, imm),
        Instr::Addi { rd, rs1, imm } => Row::IType(0b001_0011, 0b000, rd, rs1, imm),
        Instr::Slti { rd, rs1, imm } => Row::IType(0b001_0011, 0b010, rd, rs1, imm),
        Instr::Sltiu { rd, rs1, imm } => Row::IType(0b001_0011, 0b011, rd, rs1, imm),
        Instr::Xori { rd, rs1, imm } => Row::IType(0b001_0011, 0b100, rd, rs1, imm),
        Instr::Ori { rd, rs1, imm } => Row::IType(0b001_0011, 0b110, rd, rs1, imm),
        Instr::Andi { rd, rs1, imm } => Row::IType(0b001_0011, 0b111, rd, rs1, imm),
        Instr::Slli { rd, rs1, imm } => Row::ShiftType(0b001_0011, 0b001, 0b000_0000, rd, rs1, imm),
        Instr::Srli { rd, rs1, imm } => Row::ShiftType(0b001_0011, 0b101, 0b000_0000, rd, rs1, imm),
        Instr::Srai { rd, rs1, imm } => Row::ShiftType(0b001_0011, 0b101, 0b010_0000, rd, rs1, imm),
        Instr::Add { rd, rs1, rs2 } => Row::RType(0b011_0011, 0b000, 0b000_0000, rd, rs1, rs2),
        Instr::Sll { rd, rs1, rs2 } => Row::RType(0b011_0011, 0b001, 0b000_0000, rd, rs1, rs2),
        Instr::Slt { rd, rs1, rs2 } => Row::RType(0b011_0011, 0b010, 0b000_0000, rd, rs1, rs2),
        Instr::Sltu { rd, rs1, rs2 } => Row::RType(0b011_0011, 0b011, 0b000_0000, rd, rs1, rs2),
        Instr::Xor { rd, rs1, rs2 } => Row::RType(0b011_0011, 0b100, 0b000_0000, rd, rs1, rs2),
        Instr::Srl { rd, rs1, rs2 } => Row::RType(0b011_0011, 0b101, 0b000_0000, rd, rs1, rs2),
        Instr::Or { rd, rs1, rs2 } => Row::RType(0b011_0011, 0b110, 0b000_0000, rd, rs1, rs2),
        Instr::And { rd, rs1, rs2 } => Row::RType(0b011_0011, 0b111, 0b000_0000, rd, rs1, rs2),
        Instr::Sub { rd, rs1, rs2 } => Row::RType(0b011_0011, 0b000, 0b010_0000, rd, rs1, rs2),
        Instr::Sra { rd, rs1, rs2 } => Row::RType(0b011_0011, 0b101, 0b010_0000, rd, rs1, rs2),
        Instr::Mul { rd, rs1, rs2 } => Row::RType(0b011_0011, 0b000, 0b000_0001, rd, rs1, rs2),
        Instr::Mulh { rd, rs1, rs2 } => Row::RType(0b011_0011, 0b001, 0b000_0001, rd, rs1, rs2),
        Instr::Mulhsu { rd, rs1, rs2 } => Row::RType(0b011_0011, 0b010, 0b000_0001, rd, rs1, rs2),
        Instr::Mulhu { rd, rs1, rs2 } => Row::RType(0b011_0011, 0b011, 0b000_0001, rd, rs1, rs2),
        Instr::Div { rd, rs1, rs2 } => Row::RType(0b011_0011, 0b100, 0b000_0001, rd, rs1, rs2),
        Instr::Divu { rd, rs1, rs2 } => Row::RType(0b011_0011, 0b101, 0b000_0001, rd, rs1, rs2),
        Instr::Rem { rd, rs1, rs2 } => Row::RType(0b011_0011, 0b110, 0b000_0001, rd, rs1, rs2),
        Instr::Remu { rd, rs1, rs2 } => Row::RType(0b011_0011, 0b111, 0b000_0001, rd, rs1, rs2),
        Instr::Fence { fields } => Row::FenceType(0b000_1111, 0b000, fields),
        Instr::Ecall => Row::WholeWord(0x0000_0073),
        Instr::Ebreak => Row::WholeWord(0x0010_0073),
    }
}
