// The cuts of functions: at their parameters, at their loops, and at their returns.

ghost use Rattle.std.specs.Prelude.{◌≡◌, ◌++◌, ◌+◌, IfOk, OnOk, map};
ghost use Rattle.ir_arena.specs.Placed.{function_of};
ghost use Rattle.ir_cuts.specs.Cuts.{tracked_in, entry_cut, exit_cut, given_width, function_cuts, cuts_from};

use crate::loops::heads;
use crate::scope::{Scope, is_tracked};
use ir_arena::{CutKind, CutPlace, IrFunction};
use operator_meaning::Object;
use sat_base::{Memory, Width};
use sqlite_items::Items;
use std::alloc::Global;

impl Scope<'_> {
    /// Those of these objects of which ranges are stated.
    fn tracked(&self, numbers: &[u32]) -> Result<Items<u32>, Memory>
        ensures { IfOk result (λ tracked. tracked ≡ tracked_in self.now.objects.now numbers.now) }
    {
        let mut tracked = Items::new(self.alloc);
        for number in numbers {
            if is_tracked(self.objects, *number) {
                tracked.push(*number)?;
            }
        }
        Ok(tracked)
    }

    /// The cut at the parameters of the function.
    fn entry(&self, variables: &[u32]) -> Result<CutPlace, Memory>
        ensures { IfOk result (λ cut. cut ≡ entry_cut self.now.objects.now self.now.function variables.now) }
    {
        Ok(CutPlace {
            kind: CutKind::Entry,
            function: self.function,
            variables: Items::from_slice(self.alloc, variables)?,
            widths: self.widths(variables)?,
        })
    }

    /// The cut at the return of the function.
    fn exit(&self, gives: Option<Width>) -> Result<CutPlace, Memory>
        ensures { IfOk result (λ cut. cut ≡ exit_cut self.now.function gives) }
    {
        let mut widths = Items::new(self.alloc);
        if let Some(width) = gives {
            widths.push(width)?;
        }
        Ok(CutPlace {
            kind: CutKind::Exit,
            function: self.function,
            variables: Items::new(self.alloc),
            widths,
        })
    }

    /// Adds the cuts of the function.
    fn add_cuts(&self, function: &IrFunction<'_>, cuts: &mut Items<CutPlace>) -> Result<(), Memory>
        ensures { OnOk result (cuts.new ≡ cuts.old ++ function_cuts self.now.objects.now self.now.function (function_of function.now)) }
    {
        let variables = self.tracked(function.params.as_slice())?;
        cuts.push(self.entry(variables.as_slice())?)?;
        heads(self, variables.as_slice(), function.body, cuts)?;
        cuts.push(self.exit(function.gives)?)?;
        Ok(())
    }
}

/// All cuts of a tree: function by function, first its parameters, then its loops, then its return.
pub fn cuts(
    alloc: Global,
    objects: &[Object],
    functions: &[IrFunction<'_>],
) -> Result<Items<CutPlace>, Memory>
    ensures { IfOk result (λ cuts. cuts ≡ cuts_from objects.now 0 (map function_of functions.now)) }
{
    let mut cuts = Items::new(alloc);
    let mut number: u32 = 0;
    for function in functions {
        let scope = Scope {
            alloc,
            objects,
            function: number,
        };
        scope.add_cuts(function, &mut cuts)?;
        number = number.checked_add(1).ok_or(Memory)?;
    }
    Ok(cuts)
}
