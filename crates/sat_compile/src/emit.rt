// The code and the site entries of a source of the first form.

ghost use Rattle.std.specs.Prelude.{◌≡◌, ◌+◌, ◌<◌, ◌≤◌, ◌∷◌, [], ◌++◌, length, map, All, IfOk, OnOk};
ghost use Rattle.std.specs.List.{flat_map};
ghost use Rattle.first_form.specs.Form.{IsOperand, HasOperands, nesting_of};
ghost use Rattle.sat_base.specs.declared.limits.TheConstants.{DEPTH};
ghost use Rattle.rv_encode.specs.Words.{Fits, IsRegister, IsWithin, encoded};
ghost use Rattle.sat_compile.specs.Emission.{clip_code, number_code, operator_code, call_code, operand_code, expression_code, environment_code, out_code, code_of, kind_of, entry_of, call_entries, expression_entries, entries_from, image_of, slot, HasNumbers};

use crate::memory::memory_len;
use crate::numbers::{bytes_fit, places_fit, words_fit};
use first_form::{First, FirstExpr};
use image_format::{Image, SiteEntry};
use rv_encode::{Instr, encode};
use sat_base::Pos;
use sqlite_items::Items;
use std::alloc::{AllocError, Global};

/// How many words of code an image can hold.
const MOST_WORDS: usize = 16_777_216;

/// The operators that a source may call.
#[derive(Clone, Copy, Debug, PartialEq, Eq)]
pub enum Operator {
    Add,
    Sub,
}

impl Operator {
    /// The number of its kind in an image.
    fn kind(self) -> u8
        ensures { result ≡ kind_of self }
    {
        match self {
            Operator::Add => 0,
            Operator::Sub => 1,
        }
    }
}

/// The image of a source: its code, its data memory, and an entry for each of its sites.
pub fn image_of(alloc: Global, first: &First) -> Result<Image, AllocError>
    requires operands { All HasOperands first.now.outs }
    requires nesting { All (λ e. nesting_of e ≤ DEPTH) first.now.outs }
    requires fits { length (code_of first.now) ≤ MOST_WORDS }
    ensures image { IfOk result (λ image. image ≡ image_of first.now) }
    ensures numbers { IfOk result HasNumbers }
{
    let mut code = Vec::new(alloc);
    let mut sites = Vec::new(alloc);
    push(&mut code, lui(26, 0x1_0000))?;
    push_outs(&mut code, &mut sites, first.outs.as_slice())?;
    push_environment(&mut code, 4)?;
    let memory = vec![in alloc; 0; memory_len(first)]?;
    words_fit(&code);
    bytes_fit(&memory);
    places_fit(&sites);
    Ok(Image {
        code: Items::from_vec(code),
        memory: Items::from_vec(memory),
        sites: Items::from_vec(sites),
    })
}

// The statements that write, in order, and their sites.
fn push_outs(
    code: &mut Vec<u32>,
    sites: &mut Vec<SiteEntry>,
    outs: &[FirstExpr],
) -> Result<(), AllocError>
    requires operands { All HasOperands outs.now }
    requires nesting { All (λ e. nesting_of e ≤ DEPTH) outs.now }
    requires fits { length code.old.items + length (flat_map out_code outs.now) ≤ MOST_WORDS }
    ensures code { OnOk result (code.new.items ≡ code.old.items ++ map encoded (flat_map out_code outs.now)) }
    ensures sites { OnOk result (sites.new.items ≡ sites.old.items ++ entries_from (length code.old.items) outs.now) }
{
    for expr in outs {
        push_out(code, sites, expr)?;
    }
    Ok(())
}

// A statement that writes: `sample_out` of an expression.
fn push_out(
    code: &mut Vec<u32>,
    sites: &mut Vec<SiteEntry>,
    expr: &FirstExpr,
) -> Result<(), AllocError>
    requires operands { HasOperands expr.now }
    requires nesting { nesting_of expr.now ≤ DEPTH }
    requires fits { length code.old.items + length (out_code expr.now) ≤ MOST_WORDS }
    ensures code { OnOk result (code.new.items ≡ code.old.items ++ map encoded (out_code expr.now)) }
    ensures sites { OnOk result (sites.new.items ≡ sites.old.items ++ expression_entries (length code.old.items) 0 expr.now) }
{
    push_expression(code, sites, 0, expr)?;
    push(code, addi(10, 8, 0))?;
    push_environment(code, 3)
}

fn entry(operator: Operator, first: u32, pos: Pos) -> SiteEntry
    ensures { result ≡ entry_of operator first pos }
{
    SiteEntry {
        first,
        line: pos.line,
        col: pos.col,
        bound: 0,
        words: 10,
        kind: operator.kind(),
        form: 2,
        guard: 0,
        operands: 2,
        result: 8,
        reg_a: 8,
        reg_b: 9,
        reg_c: 0,
    }
}

// The value of an expression into x8, at this depth of kept operands.
#[cycle(expression)]
fn push_expression(
    code: &mut Vec<u32>,
    sites: &mut Vec<SiteEntry>,
    depth: u8,
    expr: &FirstExpr,
) -> Result<(), AllocError>
    requires operands { HasOperands expr.now }
    requires nesting { depth + nesting_of expr.now ≤ DEPTH }
    requires fits { length code.old.items + length (expression_code depth expr.now) ≤ MOST_WORDS }
    ensures code { OnOk result (code.new.items ≡ code.old.items ++ map encoded (expression_code depth expr.now)) }
    ensures sites { OnOk result (sites.new.items ≡ sites.old.items ++ expression_entries (length code.old.items) depth expr.now) }
{
    match expr {
        FirstExpr::Int(number) => push_number(code, 8, *number),
        FirstExpr::Add {
            pos,
            left,
            right,
            ..
        } => {
            push_call(
                code,
                sites,
                depth,
                Operator::Add,
                *pos,
                left.get(),
                right.get(),
            )
        }
        FirstExpr::Sub {
            pos,
            left,
            right,
            ..
        } => {
            push_call(
                code,
                sites,
                depth,
                Operator::Sub,
                *pos,
                left.get(),
                right.get(),
            )
        }
    }
}

// A call of an operator. Its entry stands before those of its operands, and is known after them.
#[cycle(expression)]
fn push_call(
    code: &mut Vec<u32>,
    sites: &mut Vec<SiteEntry>,
    depth: u8,
    operator: Operator,
    pos: Pos,
    left: &FirstExpr,
    right: &FirstExpr,
) -> Result<(), AllocError>
    requires left { HasOperands left.now }
    requires right { HasOperands right.now }
    requires left_nesting { depth + nesting_of left.now < DEPTH }
    requires right_nesting { depth + nesting_of right.now < DEPTH }
    requires fits { length code.old.items + length (call_code operator (expression_code depth left.now)
        (operand_code depth right.now (expression_code (depth + 1) right.now))) ≤ MOST_WORDS }
    ensures code { OnOk result (code.new.items ≡ code.old.items ++ map encoded (call_code operator (expression_code depth left.now)
        (operand_code depth right.now (expression_code (depth + 1) right.now)))) }
    ensures sites { OnOk result (sites.new.items ≡ sites.old.items ++ call_entries operator pos (length code.old.items)
        (expression_code depth left.now) (operand_code depth right.now (expression_code (depth + 1) right.now))
        (expression_entries (length code.old.items) depth left.now)
        (expression_entries (length code.old.items + length (expression_code depth left.now) + 1) (depth + 1) right.now)) }
{
    let index = sites.len();
    sites.push(entry(operator, 0, pos))?;
    push_expression(code, sites, depth, left)?;
    push_operand(code, sites, depth, right)?;
    sites[index] = entry(operator, code.len() as u32, pos);
    push_operator(code, operator)?;
    push(code, addi(24, 24, 1))
}

// A right operand into x9, while x8 is kept.
#[cycle(expression)]
fn push_operand(
    code: &mut Vec<u32>,
    sites: &mut Vec<SiteEntry>,
    depth: u8,
    expr: &FirstExpr,
) -> Result<(), AllocError>
    requires operands { HasOperands expr.now }
    requires nesting { depth + nesting_of expr.now < DEPTH }
    requires fits { length code.old.items + length (operand_code depth expr.now (expression_code (depth + 1) expr.now)) ≤ MOST_WORDS }
    ensures code { OnOk result (code.new.items ≡ code.old.items ++ map encoded (operand_code depth expr.now (expression_code (depth + 1) expr.now))) }
    ensures sites { OnOk result (sites.new.items ≡ sites.old.items ++ expression_entries (length code.old.items + 1) (depth + 1) expr.now) }
{
    if let FirstExpr::Int(number) = expr {
        return push_number(code, 9, *number);
    }
    push(code, sw(26, 8, slot(depth)))?;
    push_expression(code, sites, depth + 1, expr)?;
    push(code, addi(9, 8, 0))?;
    push(code, lw(8, 26, slot(depth)))
}

// The place of what is kept at this depth, from where the data memory begins.
fn slot(depth: u8) -> i32
    ensures { result ≡ slot depth }
{
    4 * i32::from(depth)
}

// A number into a register.
fn push_number(code: &mut Vec<u32>, rd: u8, number: i32) -> Result<(), AllocError>
    requires rd { IsRegister rd }
    requires number { IsOperand number }
    ensures { OnOk result (code.new.items ≡ code.old.items ++ map encoded (number_code rd number)) }
{
    let upper = (number.unsigned_abs() + 2048) / 4096;
    let lower = number - (4096 * upper) as i32;
    push(code, lui(rd, upper))?;
    push(code, addi(rd, rd, lower))
}

// The operator's value on x8 and x9 into x8, clipped to 16 bits, with the update of Overflow in x27.
fn push_operator(code: &mut Vec<u32>, operator: Operator) -> Result<(), AllocError>
    ensures { OnOk result (code.new.items ≡ code.old.items ++ map encoded (operator_code operator)) }
{
    match operator {
        Operator::Add => push(code, add(8, 8, 9))?,
        Operator::Sub => push(code, sub(8, 8, 9))?,
    }
    push_clip(code)
}

// x8 is clipped to 16 bits, and x27 becomes 1 where the clip changed it.
fn push_clip(code: &mut Vec<u32>) -> Result<(), AllocError>
    ensures { OnOk result (code.new.items ≡ code.old.items ++ map encoded clip_code) }
{
    // Above 32767.
    push(code, lui(5, 8))?;
    push(code, blt(8, 5, 16))?;
    push(code, addi(8, 5, -1))?;
    push(code, addi(27, 0, 1))?;
    push(code, jal(0, 20))?;
    // Below -32768.
    push(code, lui(6, 0xF_FFF8))?;
    push(code, bge(8, 6, 12))?;
    push(code, addi(8, 6, 0))?;
    push(code, addi(27, 0, 1))
}

// An environment call.
fn push_environment(code: &mut Vec<u32>, number: i32) -> Result<(), AllocError>
    requires { IsWithin 2048 number }
    ensures { OnOk result (code.new.items ≡ code.old.items ++ map encoded (environment_code number)) }
{
    push(code, addi(17, 0, number))?;
    push(code, Instr::Ecall)
}

// One more instruction.
fn push(code: &mut Vec<u32>, instr: Instr) -> Result<(), AllocError>
    requires { Fits instr }
    ensures { OnOk result (code.new.items ≡ code.old.items ++ encoded instr ∷ []) }
{
    code.push(encode(instr))?;
    Ok(())
}

fn lui(rd: u8, imm: u32) -> Instr
    ensures { result ≡ Instr.Lui rd imm }
{
    Instr::Lui { rd, imm }
}

fn addi(rd: u8, rs1: u8, imm: i32) -> Instr
    ensures { result ≡ Instr.Addi rd rs1 imm }
{
    Instr::Addi { rd, rs1, imm }
}

fn add(rd: u8, rs1: u8, rs2: u8) -> Instr
    ensures { result ≡ Instr.Add rd rs1 rs2 }
{
    Instr::Add { rd, rs1, rs2 }
}

fn blt(rs1: u8, rs2: u8, imm: i32) -> Instr
    ensures { result ≡ Instr.Blt rs1 rs2 imm }
{
    Instr::Blt { rs1, rs2, imm }
}

fn bge(rs1: u8, rs2: u8, imm: i32) -> Instr
    ensures { result ≡ Instr.Bge rs1 rs2 imm }
{
    Instr::Bge { rs1, rs2, imm }
}

fn jal(rd: u8, imm: i32) -> Instr
    ensures { result ≡ Instr.Jal rd imm }
{
    Instr::Jal { rd, imm }
}

fn sub(rd: u8, rs1: u8, rs2: u8) -> Instr
    ensures { result ≡ Instr.Sub rd rs1 rs2 }
{
    Instr::Sub { rd, rs1, rs2 }
}

fn lw(rd: u8, rs1: u8, imm: i32) -> Instr
    ensures { result ≡ Instr.Lw rd rs1 imm }
{
    Instr::Lw { rd, rs1, imm }
}

fn sw(rs1: u8, rs2: u8, imm: i32) -> Instr
    ensures { result ≡ Instr.Sw rs1 rs2 imm }
{
    Instr::Sw { rs1, rs2, imm }
}
