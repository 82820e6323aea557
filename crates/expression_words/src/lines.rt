// The short rows of words that compute a value of those on top of the stack, which it replaces.

ghost use Rattle.std.specs.Prelude.{◌≡◌, ◌++◌, [], ◌∷◌, pos, negsuc, OnOk};
ghost use Rattle.expression_code.specs.Code.{around, binary_line, constant_code, convert_code, invert_line, narrow_line, not_line, truth_line, turned};
ghost use Rattle.code_lines.specs.declared.word.Word.TheVariants.{Own};
ghost use Rattle.code_pieces.specs.Pieces.{Extends};
ghost use Rattle.data_layout.specs.Layouts.{layout_of};

use crate::emission::Emission;
use c_tree::BinaryMark;
use code_pieces::Code;
use code_pieces::sites::{operand_register, stack_register};
use rv_encode::Instr;
use rv_encode::register::{T0, ZERO};
use sat_base::{Memory, Width};

// The low 16 bits, as signed.
fn narrow_line(code: &mut Code, depth: u32) -> Result<(), Memory>
    ensures { OnOk result (Extends code.old code.new (narrow_line depth)) }
{
    let rd = stack_register(depth);
    code.push_own(Instr::Slli {
        rd,
        rs1: operand_register(depth, 0),
        imm: 16,
    })?;
    code.push_own(Instr::Srai {
        rd,
        rs1: rd,
        imm: 16,
    })
}

// 1 where the value is 0, and else 0.
fn not_line(code: &mut Code, depth: u32) -> Result<(), Memory>
    ensures { OnOk result (Extends code.old code.new (not_line depth)) }
{
    code.push_own(Instr::Sltiu {
        rd: stack_register(depth),
        rs1: operand_register(depth, 0),
        imm: 1,
    })
}

// All bits turned.
fn invert_line(code: &mut Code, depth: u32) -> Result<(), Memory>
    ensures { OnOk result (Extends code.old code.new (invert_line depth)) }
{
    code.push_own(Instr::Addi {
        rd: T0,
        rs1: ZERO,
        imm: -1,
    })?;
    code.push_own(Instr::Sub {
        rd: stack_register(depth),
        rs1: T0,
        rs2: operand_register(depth, 0),
    })
}

// 1 where the value is not 0, and else 0.
fn truth_line(code: &mut Code, depth: u32) -> Result<(), Memory>
    ensures { OnOk result (Extends code.old code.new (truth_line depth)) }
{
    code.push_own(Instr::Sltu {
        rd: stack_register(depth),
        rs1: ZERO,
        rs2: operand_register(depth, 0),
    })
}

// What comes to 0 or 1, and then to the other of both.
fn turned(code: &mut Code, depth: u32, instr: Instr) -> Result<(), Memory>
    ensures { OnOk result (Extends code.old code.new (turned depth (Own instr))) }
{
    let rd = stack_register(depth);
    code.push_own(instr)?;
    code.push_own(Instr::Xori {
        rd,
        rs1: rd,
        imm: 1,
    })
}

// The bits of two values together, or how they compare; nothing of other marks.
fn binary_line(code: &mut Code, mark: BinaryMark, depth: u32) -> Result<(), Memory>
    ensures { OnOk result (Extends code.old code.new (binary_line mark depth)) }
{
    let rd = stack_register(depth);
    let rs1 = operand_register(depth, 0);
    let rs2 = operand_register(depth, 1);
    match mark {
        BinaryMark::BitAnd => code.push_own(Instr::And { rd, rs1, rs2 }),
        BinaryMark::BitOr => code.push_own(Instr::Or { rd, rs1, rs2 }),
        BinaryMark::BitXor => code.push_own(Instr::Xor { rd, rs1, rs2 }),
        BinaryMark::Eq => {
            code.push_own(Instr::Sub { rd, rs1, rs2 })?;
            code.push_own(Instr::Sltiu {
                rd,
                rs1: rd,
                imm: 1,
            })
        }
        BinaryMark::Ne => {
            code.push_own(Instr::Sub { rd, rs1, rs2 })?;
            code.push_own(Instr::Sltu {
                rd,
                rs1: ZERO,
                rs2: rd,
            })
        }
        BinaryMark::Lt => code.push_own(Instr::Slt { rd, rs1, rs2 }),
        BinaryMark::Le => turned(
            code,
            depth,
            Instr::Slt {
                rd,
                rs1: rs2,
                rs2: rs1,
            },
        ),
        BinaryMark::Gt => code.push_own(Instr::Slt {
            rd,
            rs1: rs2,
            rs2: rs1,
        }),
        BinaryMark::Ge => turned(code, depth, Instr::Slt { rd, rs1, rs2 }),
        BinaryMark::Both
        | BinaryMark::Either
        | BinaryMark::Plus
        | BinaryMark::Minus
        | BinaryMark::Times => Ok(()),
    }
}

impl Emission<'_> {
    /// Appends a number on the stack.
    pub fn constant(&self, code: &mut Code, value: i32, depth: u32) -> Result<(), Memory>
        ensures { OnOk result (Extends code.old code.new (constant_code (layout_of self.now.layout.now) value depth)) }
    {
        code.push_number(stack_register(depth), value)?;
        self.finished(code, depth)
    }

    /// Appends what turns the truth of the value on top.
    pub fn negated(&self, code: &mut Code, depth: u32) -> Result<(), Memory>
        ensures { OnOk result (Extends code.old code.new (around (layout_of self.now.layout.now) depth 1 (not_line depth))) }
    {
        self.fetched(code, depth, 1)?;
        not_line(code, depth)?;
        self.finished(code, depth)
    }

    /// Appends what turns the bits of the value on top.
    pub fn inverted(&self, code: &mut Code, depth: u32) -> Result<(), Memory>
        ensures { OnOk result (Extends code.old code.new (around (layout_of self.now.layout.now) depth 1 (invert_line depth))) }
    {
        self.fetched(code, depth, 1)?;
        invert_line(code, depth)?;
        self.finished(code, depth)
    }

    /// Appends what brings the value on top to its truth.
    pub fn truth(&self, code: &mut Code, depth: u32) -> Result<(), Memory>
        ensures { OnOk result (Extends code.old code.new (around (layout_of self.now.layout.now) depth 1 (truth_line depth))) }
    {
        self.fetched(code, depth, 1)?;
        truth_line(code, depth)?;
        self.finished(code, depth)
    }

    /// Appends what a mark makes of the two values on top, of which both are evaluated.
    pub fn marked(&self, code: &mut Code, mark: BinaryMark, depth: u32) -> Result<(), Memory>
        ensures { OnOk result (Extends code.old code.new (around (layout_of self.now.layout.now) depth 2 (binary_line mark depth))) }
    {
        self.fetched(code, depth, 2)?;
        binary_line(code, mark, depth)?;
        self.finished(code, depth)
    }

    /// Appends what converts the value on top to a width, where its form does not show that it has it.
    pub fn converted(
        &self,
        code: &mut Code,
        width: Width,
        shown: bool,
        depth: u32,
    ) -> Result<(), Memory>
        ensures { OnOk result (Extends code.old code.new (convert_code self.now.objects.now (layout_of self.now.layout.now) width shown depth)) }
    {
        if width == Width::W32 || shown {
            return Ok(());
        }
        self.fetched(code, depth, 1)?;
        narrow_line(code, depth)?;
        self.finished(code, depth)
    }
}
