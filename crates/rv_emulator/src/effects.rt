// What the instructions do to the state.

ghost use Rattle.std.specs.Prelude.{◌≡◌, [], ◌-◌, ◌%◌, if◌then◌else◌};
ghost use Rattle.rv_encode.specs.Words.{IsRegister};
ghost use Rattle.rv_encode.specs.State.{register, registers_with, address_of};
ghost use Rattle.rv_encode.specs.Effects.{sets, jumps, jumps_to, linked, goes_on, faults, loads, loads_half, loads_byte, stores, stores_half, stores_byte};
ghost use Rattle.rv_emulator.specs.Steps.{state_of, HasEffect};

use crate::state::{Ending, Hart};
use sat_base::MachineFault;

/// What one instruction did; the state that it left stands beside it.
#[derive(Clone, Copy, Debug, PartialEq, Eq)]
pub enum Step {
    Goes,
    Writes(i16),
    Ends(Ending),
}

impl Hart {
    pub fn read(&self, number: u8) -> i32
        requires { IsRegister number }
        ensures { result ≡ register (state_of self.now []) number }
    {
        self.registers[usize::from(number)]
    }

    fn write(&mut self, rd: u8, value: i32)
        requires { IsRegister rd }
        ensures { self.new ≡ record self.old { registers = registers_with self.old.registers rd value } }
    {
        if rd != 0 {
            self.registers[usize::from(rd)] = value;
        }
    }

    pub fn set(&mut self, rd: u8, value: i32) -> Step
        requires { IsRegister rd }
        ensures { HasEffect result self.old self.new (λ s. sets s rd value) }
    {
        self.write(rd, value);
        self.pc = self.pc.wrapping_add(4);
        Step::Goes
    }

    /// The next instruction follows, and nothing else changes.
    pub fn proceed(&mut self) -> Step
        ensures { HasEffect result self.old self.new goes_on }
    {
        self.pc = self.pc.wrapping_add(4);
        Step::Goes
    }

    pub fn branch(&mut self, taken: bool, imm: i32) -> Step
        ensures { HasEffect result self.old self.new (λ s. if taken then jumps s s.registers imm else goes_on s) }
    {
        if !taken {
            self.pc = self.pc.wrapping_add(4);
            return Step::Goes;
        }
        let target = self.pc.wrapping_add_signed(imm);
        if target % 4 != 0 {
            return self.fault(MachineFault::Jump);
        }
        self.pc = target;
        Step::Goes
    }

    pub fn link(&mut self, rd: u8, imm: i32) -> Step
        requires { IsRegister rd }
        ensures { HasEffect result self.old self.new (λ s. jumps s (linked s rd) imm) }
    {
        let target = self.pc.wrapping_add_signed(imm);
        if target % 4 != 0 {
            return self.fault(MachineFault::Jump);
        }
        let next = self.pc.wrapping_add(4);
        self.write(rd, next.cast_signed());
        self.pc = target;
        Step::Goes
    }

    /// JALR: a jump to the address of a register and an immediate, with its bit 0 cleared.
    pub fn jump_to_register(&mut self, rd: u8, rs1: u8, imm: i32) -> Step
        requires rd { IsRegister rd }
        requires rs1 { IsRegister rs1 }
        ensures { HasEffect result self.old self.new (λ s. let address = address_of s rs1 imm in jumps_to s (linked s rd) (address - address % 2)) }
    {
        let address = self.address(rs1, imm);
        let target = address - address % 2;
        if target % 4 != 0 {
            return self.fault(MachineFault::Jump);
        }
        let next = self.pc.wrapping_add(4);
        self.write(rd, next.cast_signed());
        self.pc = target;
        Step::Goes
    }

    /// The address of a register and an immediate.
    pub fn address(&self, rs1: u8, imm: i32) -> u32
        requires { IsRegister rs1 }
        ensures { result ≡ address_of (state_of self.now []) rs1 imm }
    {
        self.read(rs1).cast_unsigned().wrapping_add_signed(imm)
    }

    pub fn load(&mut self, rd: u8, address: u32) -> Step
        requires { IsRegister rd }
        ensures { HasEffect result self.old self.new (λ s. loads s rd address) }
    {
        if address % 4 != 0 {
            return self.fault(MachineFault::Align);
        }
        if !self.memory.has(address, 4) {
            return self.fault(MachineFault::Load);
        }
        let word = self.memory.word_at(address);
        self.set(rd, word.cast_signed())
    }

    pub fn load_half(&mut self, rd: u8, address: u32, signed: bool) -> Step
        requires { IsRegister rd }
        ensures { HasEffect result self.old self.new (λ s. loads_half s rd address signed) }
    {
        if address % 2 != 0 {
            return self.fault(MachineFault::Align);
        }
        if !self.memory.has(address, 2) {
            return self.fault(MachineFault::Load);
        }
        let half = self.memory.half_at(address);
        let value = if signed {
            half.cast_signed().into()
        } else {
            half.into()
        };
        self.set(rd, value)
    }

    pub fn load_byte(&mut self, rd: u8, address: u32, signed: bool) -> Step
        requires { IsRegister rd }
        ensures { HasEffect result self.old self.new (λ s. loads_byte s rd address signed) }
    {
        if !self.memory.has(address, 1) {
            return self.fault(MachineFault::Load);
        }
        let byte = self.memory.byte_at(address);
        let value = if signed {
            byte.cast_signed().into()
        } else {
            byte.into()
        };
        self.set(rd, value)
    }

    pub fn store(&mut self, address: u32, value: i32) -> Step
        ensures { HasEffect result self.old self.new (λ s. stores s address value) }
    {
        if address % 4 != 0 {
            return self.fault(MachineFault::Align);
        }
        if !self.memory.has(address, 4) {
            return self.fault(MachineFault::Store);
        }
        self.memory.set_word(address, value.cast_unsigned());
        self.pc = self.pc.wrapping_add(4);
        Step::Goes
    }

    /// The low 16 bits of a value.
    pub fn store_half(&mut self, address: u32, value: i32) -> Step
        ensures { HasEffect result self.old self.new (λ s. stores_half s address value) }
    {
        if address % 2 != 0 {
            return self.fault(MachineFault::Align);
        }
        if !self.memory.has(address, 2) {
            return self.fault(MachineFault::Store);
        }
        let half = value.cast_unsigned() % 0x1_0000;
        self.memory.set_half(address, half as u16);
        self.proceed()
    }

    /// The low 8 bits of a value.
    pub fn store_byte(&mut self, address: u32, value: i32) -> Step
        ensures { HasEffect result self.old self.new (λ s. stores_byte s address value) }
    {
        if !self.memory.has(address, 1) {
            return self.fault(MachineFault::Store);
        }
        let byte = value.cast_unsigned() % 0x100;
        self.memory.set_byte(address, byte as u8);
        self.proceed()
    }

    pub fn fault(&self, kind: MachineFault) -> Step
        ensures { HasEffect result self.now self.now (λ s. faults s kind) }
    {
        Step::Ends(Ending::Faulted { pc: self.pc, kind })
    }
}
