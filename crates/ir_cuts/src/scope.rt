// The tracked variables that are in scope.

ghost use Rattle.std.specs.Prelude.{◌≡◌, ◌++◌, IfOk, OnErr, map};
ghost use Rattle.ir_cuts.specs.Cuts.{is_tracked, tracked_from, widths_of, head_cut};

use ir_arena::{CutKind, CutPlace};
use operator_meaning::{Object, Storage};
use sat_base::{Memory, Width};
use source_runs::Shape;
use sqlite_items::Items;
use std::alloc::Global;

/// Where the cuts of a function are listed: its number, and the objects.
#[derive(Clone, Copy)]
pub struct Scope<'s> {
    pub alloc: Global,
    pub objects: &'s [Object],
    pub function: u32,
}

/// Whether ranges are stated of the object: an automatic scalar or a scalar parameter to which no `&` is applied.
pub fn is_tracked(objects: &[Object], number: u32) -> bool
    ensures { result ≡ is_tracked objects.now number }
{
    match objects.get(number as usize) {
        Some(object) => {
            object.rows == 0
                && !object.view
                && !object.exposed
                && !matches!(object.storage, Storage::Static)
        }
        None => false,
    }
}

impl Scope<'_> {
    /// The widths of variables.
    pub fn widths(&self, variables: &[u32]) -> Result<Items<Width>, Memory>
        ensures { IfOk result (λ widths. widths ≡ widths_of self.now.objects.now variables.now) }
    {
        let mut widths = Items::new(self.alloc);
        for number in variables {
            widths.push(Shape::of(self.objects, *number).width)?;
        }
        Ok(widths)
    }

    /// The cut at the head of a loop in this scope.
    pub fn head(&self, variables: &[u32]) -> Result<CutPlace, Memory>
        ensures { IfOk result (λ cut. cut ≡ head_cut self.now.objects.now self.now.function variables.now) }
    {
        Ok(CutPlace {
            kind: CutKind::Head,
            function: self.function,
            variables: Items::from_slice(self.alloc, variables)?,
            widths: self.widths(variables)?,
        })
    }

    /// The variables of a scope, and after them the tracked objects of a block.
    pub fn with_block(
        &self,
        variables: &[u32],
        first: u32,
        objects: u32,
    ) -> Result<Items<u32>, Memory>
        ensures { IfOk result (λ inner. inner ≡ variables.now ++ tracked_from self.now.objects.now first objects) }
    {
        let mut inner = Items::from_slice(self.alloc, variables)?;
        let mut number = first;
        for _ in 0..objects {
            if is_tracked(self.objects, number) {
                inner.push(number)?;
            }
            let Some(next) = number.checked_add(1) else {
                return Err(Memory);
            };
            number = next;
        }
        Ok(inner)
    }
}
