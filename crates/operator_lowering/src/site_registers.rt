// The registers of a site.

ghost use Rattle.std.specs.Prelude.{◌≡◌, slice_index_or};
ghost use Rattle.operator_lowering.specs.Registers.{places_of};

use smallvec::SmallVec;
use template_runs::Registers;

/// The registers of a site: that of its result, and those of its operands, of which there are at most three.
#[derive(Drop)]
pub struct Regs {
    pub dest: u8,
    pub operands: SmallVec<u8, 3>,
}

impl Regs {
    // The register of an operand, or that of the result where there is none.
    fn operand(&self, place: usize) -> u8
        ensures { result ≡ slice_index_or self.now.operands.items place self.now.dest }
    {
        match self.operands.as_slice().get(place) {
            Some(register) => *register,
            None => self.dest,
        }
    }

    /// The registers by the places of a template.
    pub(crate) fn places(&self) -> Registers
        ensures { result ≡ places_of self.now }
    {
        Registers {
            result: self.dest,
            first: self.operand(0),
            second: self.operand(1),
            third: self.operand(2),
        }
    }
}
