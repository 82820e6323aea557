// Jumps and branches, by distances in words from their ends.

ghost use Rattle.std.specs.Prelude.{◌≡◌, OnOk, IfOk, pos, negsuc, ◌≤ℤ◌, true};
ghost use Rattle.code_lines.specs.declared.word.Word.TheVariants.{Own};
ghost use Rattle.code_jumps.specs.Jumps.{branch_by, branch_code, bytes_of, is_near, jump_code, jump_where, opposite, past_code, reach_of, sensed};
ghost use Rattle.code_pieces.specs.Pieces.{Extends};

use crate::code::Code;
use crate::numbers::{lower_of, upper_of};
use code_jumps::{Reach, Test};
use rv_encode::Instr;
use rv_encode::register::{T0, ZERO};
use sat_base::Memory;

/// Two registers that are compared, in their order.
#[derive(Clone, Copy, PartialEq, Eq, Debug)]
pub struct Compared {
    pub first: u8,
    pub second: u8,
}

/// The test that holds where another one does not.
fn opposite(test: Test) -> Test
    ensures { result ≡ opposite test }
{
    match test {
        Test::Equal => Test::Unequal,
        Test::Unequal => Test::Equal,
        Test::Less => Test::NotLess,
        Test::NotLess => Test::Less,
    }
}

/// A test, or its opposite.
pub fn sensed(sense: bool, test: Test) -> Test
    ensures { result ≡ sensed sense test }
{
    if sense { test } else { opposite(test) }
}

/// How far a branch over so many words reaches.
pub fn reach_of(words: u32) -> Reach
    ensures { result ≡ reach_of words }
{
    if words < 600 {
        Reach::Short
    } else if words < 200_000 {
        Reach::Middle
    } else {
        Reach::Long
    }
}

/// Whether a near jump reaches over so many words.
pub fn is_near(words: u32) -> bool
    ensures { result ≡ is_near words }
{
    words < 200_000
}

/// The bytes of so many words, as the distance of a jump.
fn bytes_of(words: i64) -> Result<i32, Memory>
    requires low { negsuc 4294967295 ≤ℤ words }
    requires high { words ≤ℤ pos 4294967296 }
    ensures { IfOk result (λ bytes. bytes ≡ bytes_of words) }
{
    match i32::try_from(4 * words) {
        Ok(bytes) => Ok(bytes),
        Err(_) => Err(Memory),
    }
}

/// A branch by so many bytes where the test of two registers is passed.
fn branch_by(test: Test, pair: Compared, imm: i32) -> Instr
    ensures { Own result ≡ branch_by test pair.first pair.second imm }
{
    let (rs1, rs2) = (pair.first, pair.second);
    match test {
        Test::Equal => Instr::Beq { rs1, rs2, imm },
        Test::Unequal => Instr::Bne { rs1, rs2, imm },
        Test::Less => Instr::Blt { rs1, rs2, imm },
        Test::NotLess => Instr::Bge { rs1, rs2, imm },
    }
}

impl Code {
    /// A jump by so many words from its end. A near one reaches 2^18 words.
    pub fn push_past(&mut self, near: bool, distance: i32) -> Result<(), Memory>
        ensures { OnOk result (Extends self.old self.new (past_code near distance)) }
    {
        if near {
            let imm = bytes_of(1 + i64::from(distance))?;
            return self.push_own(Instr::Jal { rd: ZERO, imm });
        }
        let bytes = bytes_of(2 + i64::from(distance))?;
        self.push_own(Instr::Auipc {
            rd: T0,
            imm: upper_of(bytes),
        })?;
        self.push_own(Instr::Jalr {
            rd: ZERO,
            rs1: T0,
            imm: lower_of(bytes),
        })
    }

    /// A jump by so many words from its end, where the test of two registers is passed.
    pub fn push_where(
        &mut self,
        reach: Reach,
        test: Test,
        pair: Compared,
        distance: i32,
    ) -> Result<(), Memory>
        ensures { OnOk result (Extends self.old self.new (jump_where reach true test pair.first pair.second distance)) }
    {
        match reach {
            Reach::Short => {
                let imm = bytes_of(1 + i64::from(distance))?;
                self.push_own(branch_by(test, pair, imm))
            }
            Reach::Middle => {
                self.push_own(branch_by(opposite(test), pair, 8))?;
                self.push_past(true, distance)
            }
            Reach::Long => {
                self.push_own(branch_by(opposite(test), pair, 12))?;
                self.push_past(false, distance)
            }
        }
    }
}
