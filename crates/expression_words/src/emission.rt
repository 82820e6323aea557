// What the code of a tree is made of beside the tree.

ghost use Rattle.std.specs.Prelude.{◌≡◌, ◌+◌, ◌++◌, [], ◌∷◌, pos, negsuc, nat_lt, IfOk, OnOk};
ghost use Rattle.code_stacks.specs.Operands.{fetch_code, fetches, finish_code};
ghost use Rattle.code_stacks.specs.Places.{kept_slot};
ghost use Rattle.code_pieces.specs.Pieces.{Extends};
ghost use Rattle.data_layout.specs.Layouts.{layout_of};

use code_pieces::Code;
use code_pieces::sites::{has_register, scratch_register, stack_register};
use data_layout::DataLayout;
use operator_meaning::Object;
use sat_base::Memory;
use std::alloc::Global;

/// The objects of a tree, and where they lie.
#[derive(Clone, Copy)]
pub struct Emission<'a> {
    pub alloc: Global,
    pub objects: &'a [Object],
    pub layout: &'a DataLayout,
}

impl Emission<'_> {
    // The word of a value that has no register, by its place on the stack. Where there is none in 32 bits, Memory is answered.
    fn kept_slot(&self, place: u64) -> Result<u32, Memory>
        ensures { IfOk result (λ slot. slot ≡ kept_slot (layout_of self.now.layout.now) place) }
    {
        let above = place.saturating_sub(5);
        match above.checked_mul(4) {
            Some(bytes) => match bytes.checked_add(u64::from(self.layout.kept)) {
                Some(slot) => u32::try_from(slot).map_err(|_| Memory),
                None => Err(Memory),
            },
            None => Err(Memory),
        }
    }

    // Appends what brings an operand to the register in which it is found.
    fn fetch(&self, code: &mut Code, depth: u32, operand: u32) -> Result<(), Memory>
        ensures { OnOk result (Extends code.old code.new (fetch_code (layout_of self.now.layout.now) depth operand)) }
    {
        let place = u64::from(depth) + u64::from(operand);
        if has_register(place) {
            return Ok(());
        }
        let slot = self.kept_slot(place)?;
        code.push_load(scratch_register(operand), slot)
    }

    /// Appends what brings so many operands to their registers, of which there are three at most.
    pub fn fetched(&self, code: &mut Code, depth: u32, count: u32) -> Result<(), Memory>
        ensures { OnOk result (Extends code.old code.new (fetches (layout_of self.now.layout.now) depth count)) }
    {
        match count {
            0 => Ok(()),
            1 => self.fetch(code, depth, 0),
            2 => {
                self.fetch(code, depth, 0)?;
                self.fetch(code, depth, 1)
            }
            _ => {
                self.fetch(code, depth, 0)?;
                self.fetch(code, depth, 1)?;
                self.fetch(code, depth, 2)
            }
        }
    }

    /// Appends what brings a result to its word, where it has one.
    pub fn finished(&self, code: &mut Code, depth: u32) -> Result<(), Memory>
        ensures { OnOk result (Extends code.old code.new (finish_code (layout_of self.now.layout.now) depth)) }
    {
        let place = u64::from(depth);
        if has_register(place) {
            return Ok(());
        }
        let slot = self.kept_slot(place)?;
        code.push_store(stack_register(depth), slot)
    }
}
