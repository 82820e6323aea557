// The registers of a template, and those of a site.

ghost use Rattle.std.specs.Prelude.{◌≡◌};
ghost use Rattle.template_runs.specs.Renaming.{over, renamed};

use rv_encode::Instr;

/// The register in which a template has its result.
pub const RESULT: u8 = 8;

/// The register in which a template has its first operand.
pub const FIRST: u8 = 11;

/// The register in which a template has its second operand.
pub const SECOND: u8 = 12;

/// The register in which a template has its third operand.
pub const THIRD: u8 = 13;

/// The registers of a site: that of its result, and those of its operands. A place that a site does not have names any
/// register.
#[derive(Clone, Copy, Debug, PartialEq, Eq)]
pub struct Registers {
    pub result: u8,
    pub first: u8,
    pub second: u8,
    pub third: u8,
}

// An instruction over other registers, by the fields that instructions of its format have.
macro_rules! renamed_by {
    (
        $registers:expr, $instr:expr;
        uppers: $($upper:ident),+;
        branches: $($branch:ident),+;
        immediates: $($immediate:ident),+;
        operations: $($operation:ident),+;
    ) => {
        match $instr {
            $(Instr::$upper { rd, imm } => Instr::$upper {
                rd: $registers.renamed(rd),
                imm,
            },)+
            $(Instr::$branch { rs1, rs2, imm } => Instr::$branch {
                rs1: $registers.renamed(rs1),
                rs2: $registers.renamed(rs2),
                imm,
            },)+
            $(Instr::$immediate { rd, rs1, imm } => Instr::$immediate {
                rd: $registers.renamed(rd),
                rs1: $registers.renamed(rs1),
                imm,
            },)+
            $(Instr::$operation { rd, rs1, rs2 } => Instr::$operation {
                rd: $registers.renamed(rd),
                rs1: $registers.renamed(rs1),
                rs2: $registers.renamed(rs2),
            },)+
            other => other,
        }
    };
}

impl Registers {
    // The register of a site for a register of a template.
    fn renamed(self, number: u8) -> u8
        ensures { result ≡ renamed self number }
    {
        match number {
            RESULT => self.result,
            FIRST => self.first,
            SECOND => self.second,
            THIRD => self.third,
            other => other,
        }
    }

    /// An instruction of a template, over the registers of the site.
    pub fn over(self, instr: Instr) -> Instr
        ensures { result ≡ over self instr }
    {
        renamed_by!(self, instr;
            uppers: Lui, Jal;
            branches: Beq, Bne, Blt, Bge, Bltu, Bgeu;
            immediates: Addi, Sltiu, Ori, Andi, Slli, Srli, Srai;
            operations: Add, Sll, Xor, Sub, Sra, Mul, Mulh, Div;
        )
    }
}
