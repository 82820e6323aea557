// Runs of the words of a site.

ghost use Rattle.std.specs.Prelude.{◌<◌, All};
ghost use Rattle.template_runs.specs.Renaming.{IsPlace};

use image_format::Image;
use operator_lowering::Regs;
use rv_emulator::{Machine, Pause};
use rv_encode::register::{A7, OVERFLOW, ZERO};
use rv_encode::{Instr, encode};
use sqlite_items::Items;
use std::alloc::{AllocError, Global};
use std::str::Split;

// Where compiled code keeps the low half of the count, which an end shows.
const COUNT: u8 = 24;

// More instructions than a run takes.
const BUDGET: u64 = 1000;

/// What the words do over these numbers: how many they are, and the value and Overflow with the number of instructions, or
/// the stop.
pub fn ran(
    alloc: Global,
    regs: &Regs,
    words: &[u32],
    mut parts: Split<'_, char>,
) -> Result<String, AllocError>
    requires dest { IsPlace regs.now.dest }
    requires operands { All IsPlace regs.now.operands.items }
{
    let mut code = Items::new(alloc);
    let mut numbers = parts.next().unwrap_or("").split_whitespace();
    for register in regs.operands.as_slice() {
        let number = numbers.next().unwrap_or("").parse().unwrap_or(0);
        set(&mut code, *register, number)?;
    }
    set(
        &mut code,
        OVERFLOW,
        parts.next().unwrap_or("").trim().parse().unwrap_or(0),
    )?;
    let before = code.len() as u64;
    for word in words {
        code.push(*word)?;
    }
    code.push(encode(Instr::addi(COUNT, regs.dest, 0)))?;
    code.push(encode(Instr::addi(A7, ZERO, 4)))?;
    code.push(encode(Instr::Ecall))?;
    let samples = samples_in(alloc, parts.next().unwrap_or(""))?;
    let image = Image {
        code,
        memory: Items::new(alloc),
        sites: Items::new(alloc),
    };
    let Ok(mut machine) = Machine::load(alloc, &image, samples.as_slice()) else {
        return Err(AllocError);
    };
    let mut left = BUDGET;
    let pause = machine.run(&mut left);
    shown(
        alloc,
        pause,
        words.len(),
        (BUDGET - left).saturating_sub(before),
    )
}

// A register becomes a number.
fn set(code: &mut Items<u32>, register: u8, number: i32) -> Result<(), AllocError>
    requires { register < 32 }
{
    let sum = (i64::from(number) + 0x8000_0000_0800) as u64;
    let upper = (sum / 4096 % 0x10_0000) as u32;
    let lower = (sum % 4096) as i32 - 2048;
    code.push(encode(Instr::lui(register, upper)))?;
    code.push(encode(Instr::Addi {
        rd: register,
        rs1: register,
        imm: lower,
    }))
}

fn shown(alloc: Global, pause: Pause, words: usize, taken: u64) -> Result<String, AllocError> {
    match pause {
        Pause::Ended { overflow, count } => {
            let low = (count % 0x1_0000_0000) as i64;
            let value = if low < 0x8000_0000 {
                low
            } else {
                low - 0x1_0000_0000
            };
            let taken = taken.saturating_sub(3);
            format!(in alloc; "{words} words: {value}, Overflow {overflow}, after {taken}")
        }
        Pause::Stopped { site } => format!(in alloc; "{words} words: stopped {site}"),
        other => format!(in alloc; "{words} words: {other:?}"),
    }
}

fn samples_in(alloc: Global, text: &str) -> Result<Vec<i16>, AllocError> {
    let mut samples = Vec::new(alloc);
    for sample in text.split_whitespace() {
        if let Ok(sample) = sample.parse::<i16>() {
            samples.push(sample)?;
        }
    }
    Ok(samples)
}
