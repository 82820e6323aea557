// The registers of a site, from a list.

ghost use Rattle.std.specs.Prelude.{◌≡◌, ◌≤◌, length};

use crate::site_registers::Regs;
use smallvec::SmallVec;
use std::alloc::Global;

/// The registers of a site. At most three operands lie in themselves, so that no memory is taken.
pub fn regs(alloc: Global, dest: u8, operands: &[u8]) -> Regs
    requires { length operands.now ≤ 3 }
    ensures dest { result.dest ≡ dest }
    ensures operands { result.operands.items ≡ operands.now }
{
    match SmallVec::from_slice(alloc, operands) {
        Ok(operands) => Regs { dest, operands },
        Err(_) => unreachable!(),
    }
}
