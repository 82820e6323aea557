// From a word to its instruction.

ghost use Rattle.std.specs.Prelude.{◌≡◌, ◌+◌, ◌*◌, ◌/◌, ◌%◌, ◌^◌, ◌<◌, ◌≤◌, IfSome, IsNone, ◌↔◌};
ghost use Rattle.rv_encode.specs.Words.{Fits, encoded, IsOffTable, bits, funct3, funct7, rd_of, rs1_of, rs2_of, sign_extended, i_immediate, s_immediate, b_immediate, j_immediate, fence_fields};
ghost use Rattle.rv_encode.specs.Decoding.{decoded, instr_at, jump_register_of, branch_of, load_of, store_of, immediate_of, shift_of, operation_of, plain_operation_of, other_operation_of, product_of, fence_of, whole_word_of};

use crate::instruction::Instr;

/// The instruction of a word, and none exactly where the word is off the table of instructions.
pub fn decode(word: u32) -> Option<Instr>
    ensures value { result ≡ decoded word }
    ensures on_table { IfSome result (λ instr. Fits instr × (encoded instr ≡ word)) }
    ensures off_table { IsNone result ↔ IsOffTable word }
{
    instr_at(bits(word, 0, 7), word)
}

// The rows of an opcode.
fn instr_at(opcode: u32, word: u32) -> Option<Instr>
    ensures { result ≡ instr_at opcode (funct3 word) (funct7 word) word }
{
    match opcode {
        0b011_0111 => Some(Instr::Lui {
            rd: rd_of(word),
            imm: bits(word, 12, 20),
        }),
        0b001_0111 => Some(Instr::Auipc {
            rd: rd_of(word),
            imm: bits(word, 12, 20),
        }),
        0b110_1111 => Some(Instr::Jal {
            rd: rd_of(word),
            imm: j_immediate(word),
        }),
        0b110_0111 => jump_register_row(word),
        0b110_0011 => branch_row(word),
        0b000_0011 => load_row(word),
        0b010_0011 => store_row(word),
        0b001_0011 => immediate_row(word),
        0b011_0011 => operation_row(word),
        0b000_1111 => fence_row(word),
        _ => whole_word_row(word),
    }
}

// The row of JALR.
fn jump_register_row(word: u32) -> Option<Instr>
    ensures { result ≡ jump_register_of (funct3 word) word }
{
    match bits(word, 12, 3) {
        0b000 => Some(Instr::Jalr {
            rd: rd_of(word),
            rs1: rs1_of(word),
            imm: i_immediate(word),
        }),
        _ => None,
    }
}

// The rows of BRANCH.
fn branch_row(word: u32) -> Option<Instr>
    ensures { result ≡ branch_of (funct3 word) word }
{
    let rs1 = rs1_of(word);
    let rs2 = rs2_of(word);
    let imm = b_immediate(word);
    match bits(word, 12, 3) {
        0b000 => Some(Instr::Beq { rs1, rs2, imm }),
        0b001 => Some(Instr::Bne { rs1, rs2, imm }),
        0b100 => Some(Instr::Blt { rs1, rs2, imm }),
        0b101 => Some(Instr::Bge { rs1, rs2, imm }),
        0b110 => Some(Instr::Bltu { rs1, rs2, imm }),
        0b111 => Some(Instr::Bgeu { rs1, rs2, imm }),
        _ => None,
    }
}

// The rows of LOAD.
fn load_row(word: u32) -> Option<Instr>
    ensures { result ≡ load_of (funct3 word) word }
{
    let rd = rd_of(word);
    let rs1 = rs1_of(word);
    let imm = i_immediate(word);
    match bits(word, 12, 3) {
        0b000 => Some(Instr::Lb { rd, rs1, imm }),
        0b001 => Some(Instr::Lh { rd, rs1, imm }),
        0b010 => Some(Instr::Lw { rd, rs1, imm }),
        0b100 => Some(Instr::Lbu { rd, rs1, imm }),
        0b101 => Some(Instr::Lhu { rd, rs1, imm }),
        _ => None,
    }
}

// The rows of STORE.
fn store_row(word: u32) -> Option<Instr>
    ensures { result ≡ store_of (funct3 word) word }
{
    let rs1 = rs1_of(word);
    let rs2 = rs2_of(word);
    let imm = s_immediate(word);
    match bits(word, 12, 3) {
        0b000 => Some(Instr::Sb { rs1, rs2, imm }),
        0b001 => Some(Instr::Sh { rs1, rs2, imm }),
        0b010 => Some(Instr::Sw { rs1, rs2, imm }),
        _ => None,
    }
}

// The rows of OP-IMM.
fn immediate_row(word: u32) -> Option<Instr>
    ensures { result ≡ immediate_of (funct3 word) (funct7 word) word }
{
    let rd = rd_of(word);
    let rs1 = rs1_of(word);
    let imm = i_immediate(word);
    match bits(word, 12, 3) {
        0b000 => Some(Instr::Addi { rd, rs1, imm }),
        0b010 => Some(Instr::Slti { rd, rs1, imm }),
        0b011 => Some(Instr::Sltiu { rd, rs1, imm }),
        0b100 => Some(Instr::Xori { rd, rs1, imm }),
        0b110 => Some(Instr::Ori { rd, rs1, imm }),
        0b111 => Some(Instr::Andi { rd, rs1, imm }),
        _ => shift_row(word),
    }
}

// The shifts of OP-IMM, whose amount stands where other formats have rs2.
fn shift_row(word: u32) -> Option<Instr>
    ensures { result ≡ shift_of (funct3 word) (funct7 word) word }
{
    let rd = rd_of(word);
    let rs1 = rs1_of(word);
    let imm = bits(word, 20, 5);
    match (bits(word, 12, 3), bits(word, 25, 7)) {
        (0b001, 0b000_0000) => Some(Instr::Slli { rd, rs1, imm }),
        (0b101, 0b000_0000) => Some(Instr::Srli { rd, rs1, imm }),
        (0b101, 0b010_0000) => Some(Instr::Srai { rd, rs1, imm }),
        _ => None,
    }
}

// The rows of OP.
fn operation_row(word: u32) -> Option<Instr>
    ensures { result ≡ operation_of (funct3 word) (funct7 word) word }
{
    match bits(word, 25, 7) {
        0b000_0000 => plain_operation_row(word),
        0b010_0000 => other_operation_row(word),
        0b000_0001 => product_row(word),
        _ => None,
    }
}

fn plain_operation_row(word: u32) -> Option<Instr>
    ensures { result ≡ plain_operation_of (funct3 word) word }
{
    let rd = rd_of(word);
    let rs1 = rs1_of(word);
    let rs2 = rs2_of(word);
    match bits(word, 12, 3) {
        0b000 => Some(Instr::Add { rd, rs1, rs2 }),
        0b001 => Some(Instr::Sll { rd, rs1, rs2 }),
        0b010 => Some(Instr::Slt { rd, rs1, rs2 }),
        0b011 => Some(Instr::Sltu { rd, rs1, rs2 }),
        0b100 => Some(Instr::Xor { rd, rs1, rs2 }),
        0b101 => Some(Instr::Srl { rd, rs1, rs2 }),
        0b110 => Some(Instr::Or { rd, rs1, rs2 }),
        0b111 => Some(Instr::And { rd, rs1, rs2 }),
        _ => None,
    }
}

fn other_operation_row(word: u32) -> Option<Instr>
    ensures { result ≡ other_operation_of (funct3 word) word }
{
    let rd = rd_of(word);
    let rs1 = rs1_of(word);
    let rs2 = rs2_of(word);
    match bits(word, 12, 3) {
        0b000 => Some(Instr::Sub { rd, rs1, rs2 }),
        0b101 => Some(Instr::Sra { rd, rs1, rs2 }),
        _ => None,
    }
}

// The rows of the extension M.
fn product_row(word: u32) -> Option<Instr>
    ensures { result ≡ product_of (funct3 word) word }
{
    let rd = rd_of(word);
    let rs1 = rs1_of(word);
    let rs2 = rs2_of(word);
    match bits(word, 12, 3) {
        0b000 => Some(Instr::Mul { rd, rs1, rs2 }),
        0b001 => Some(Instr::Mulh { rd, rs1, rs2 }),
        0b010 => Some(Instr::Mulhsu { rd, rs1, rs2 }),
        0b011 => Some(Instr::Mulhu { rd, rs1, rs2 }),
        0b100 => Some(Instr::Div { rd, rs1, rs2 }),
        0b101 => Some(Instr::Divu { rd, rs1, rs2 }),
        0b110 => Some(Instr::Rem { rd, rs1, rs2 }),
        0b111 => Some(Instr::Remu { rd, rs1, rs2 }),
        _ => None,
    }
}

// The row of FENCE.
fn fence_row(word: u32) -> Option<Instr>
    ensures { result ≡ fence_of (funct3 word) word }
{
    match bits(word, 12, 3) {
        0b000 => Some(Instr::Fence {
            fields: bits(word, 20, 12) * 1024 + bits(word, 15, 5) * 32 + bits(word, 7, 5),
        }),
        _ => None,
    }
}

// The rows that are one word each.
fn whole_word_row(word: u32) -> Option<Instr>
    ensures { result ≡ whole_word_of word }
{
    match word {
        0x0000_0073 => Some(Instr::Ecall),
        0x0010_0073 => Some(Instr::Ebreak),
        _ => None,
    }
}

// `count` bits of a word, from the bit `low` on.
fn bits(word: u32, low: u32, count: u32) -> u32
    requires within { low + count ≤ 32 }
    requires some { 0 < count }
    requires less { count < 32 }
    ensures { result ≡ bits word low count }
{
    (word >> low) % (1 << count)
}

fn rd_of(word: u32) -> u8
    ensures { result ≡ rd_of word }
{
    bits(word, 7, 5) as u8
}

fn rs1_of(word: u32) -> u8
    ensures { result ≡ rs1_of word }
{
    bits(word, 15, 5) as u8
}

fn rs2_of(word: u32) -> u8
    ensures { result ≡ rs2_of word }
{
    bits(word, 20, 5) as u8
}

// A field whose uppermost bit, worth `sign`, is a sign.
fn sign_extended(sign: u32, value: u32) -> i32
    requires small { sign ≤ 2 ^ 20 }
    requires within { value < 2 * sign }
    ensures { result ≡ sign_extended sign value }
{
    if value < sign {
        value as i32
    } else {
        value as i32 - 2 * sign as i32
    }
}

fn i_immediate(word: u32) -> i32
    ensures { result ≡ i_immediate word }
{
    sign_extended(2048, bits(word, 20, 12))
}

fn s_immediate(word: u32) -> i32
    ensures { result ≡ s_immediate word }
{
    sign_extended(2048, bits(word, 25, 7) * 32 + bits(word, 7, 5))
}

fn b_immediate(word: u32) -> i32
    ensures { result ≡ b_immediate word }
{
    let value = bits(word, 31, 1) * 4096
        + bits(word, 7, 1) * 2048
        + bits(word, 25, 6) * 32
        + bits(word, 8, 4) * 2;
    sign_extended(4096, value)
}

fn j_immediate(word: u32) -> i32
    ensures { result ≡ j_immediate word }
{
    let value = bits(word, 31, 1) * 1_048_576
        + bits(word, 12, 8) * 4096
        + bits(word, 20, 1) * 2048
        + bits(word, 21, 10) * 2;
    sign_extended(1_048_576, value)
}
