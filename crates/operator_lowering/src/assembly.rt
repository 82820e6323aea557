// Instructions as an assembler has them, one to a line.

// An array of instructions.
macro_rules! words {
    (@lui $rd:expr, $imm:expr) => { Instr::Lui { rd: $rd, imm: $imm } };
    (@jal $rd:expr, $imm:expr) => { Instr::Jal { rd: $rd, imm: $imm } };
    (@beq $rs1:expr, $rs2:expr, $imm:expr) => { Instr::Beq { rs1: $rs1, rs2: $rs2, imm: $imm } };
    (@bne $rs1:expr, $rs2:expr, $imm:expr) => { Instr::Bne { rs1: $rs1, rs2: $rs2, imm: $imm } };
    (@blt $rs1:expr, $rs2:expr, $imm:expr) => { Instr::Blt { rs1: $rs1, rs2: $rs2, imm: $imm } };
    (@bge $rs1:expr, $rs2:expr, $imm:expr) => { Instr::Bge { rs1: $rs1, rs2: $rs2, imm: $imm } };
    (@bltu $rs1:expr, $rs2:expr, $imm:expr) => { Instr::Bltu { rs1: $rs1, rs2: $rs2, imm: $imm } };
    (@bgeu $rs1:expr, $rs2:expr, $imm:expr) => { Instr::Bgeu { rs1: $rs1, rs2: $rs2, imm: $imm } };
    (@addi $rd:expr, $rs1:expr, $imm:expr) => { Instr::Addi { rd: $rd, rs1: $rs1, imm: $imm } };
    (@sltiu $rd:expr, $rs1:expr, $imm:expr) => { Instr::Sltiu { rd: $rd, rs1: $rs1, imm: $imm } };
    (@ori $rd:expr, $rs1:expr, $imm:expr) => { Instr::Ori { rd: $rd, rs1: $rs1, imm: $imm } };
    (@andi $rd:expr, $rs1:expr, $imm:expr) => { Instr::Andi { rd: $rd, rs1: $rs1, imm: $imm } };
    (@slli $rd:expr, $rs1:expr, $imm:expr) => { Instr::Slli { rd: $rd, rs1: $rs1, imm: $imm } };
    (@srli $rd:expr, $rs1:expr, $imm:expr) => { Instr::Srli { rd: $rd, rs1: $rs1, imm: $imm } };
    (@srai $rd:expr, $rs1:expr, $imm:expr) => { Instr::Srai { rd: $rd, rs1: $rs1, imm: $imm } };
    (@add $rd:expr, $rs1:expr, $rs2:expr) => { Instr::Add { rd: $rd, rs1: $rs1, rs2: $rs2 } };
    (@sub $rd:expr, $rs1:expr, $rs2:expr) => { Instr::Sub { rd: $rd, rs1: $rs1, rs2: $rs2 } };
    (@sll $rd:expr, $rs1:expr, $rs2:expr) => { Instr::Sll { rd: $rd, rs1: $rs1, rs2: $rs2 } };
    (@sra $rd:expr, $rs1:expr, $rs2:expr) => { Instr::Sra { rd: $rd, rs1: $rs1, rs2: $rs2 } };
    (@xor $rd:expr, $rs1:expr, $rs2:expr) => { Instr::Xor { rd: $rd, rs1: $rs1, rs2: $rs2 } };
    (@mul $rd:expr, $rs1:expr, $rs2:expr) => { Instr::Mul { rd: $rd, rs1: $rs1, rs2: $rs2 } };
    (@mulh $rd:expr, $rs1:expr, $rs2:expr) => { Instr::Mulh { rd: $rd, rs1: $rs1, rs2: $rs2 } };
    (@div $rd:expr, $rs1:expr, $rs2:expr) => { Instr::Div { rd: $rd, rs1: $rs1, rs2: $rs2 } };
    (@ecall) => { Instr::Ecall };
    ($($name:ident $($operand:expr),*);+ $(;)?) => { [$(words!(@$name $($operand),*)),+] };
}

pub(crate) use words;
