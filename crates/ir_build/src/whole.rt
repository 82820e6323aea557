// The tree of a source.

ghost use Rattle.std.specs.Prelude.{◌≡◌, IfOk, map};
ghost use Rattle.call_structure.specs.Orders.{IsCallersFirst};
ghost use Rattle.ir_arena.specs.Placed.{function_of};
ghost use Rattle.ir_expressions.specs.Building.{AreShort};
ghost use Rattle.ir_cuts.specs.Cuts.{cuts_from};
ghost use Rattle.whole_trees.specs.Sources.{setting_for, function_at, numbers_defined, defined_functions, functions_along, main_in, renumbered};
ghost use Rattle.lawful_sources.specs.Lawful.{IsLawful};
ghost use Rattle.lawful_ir.specs.Built.{IsTreeOf, DoesAs};
ghost use Rattle.lawful_ir.specs.Lawful.{IsLawfulTree};

use bumpalo::Bump;
use c_typed::Typed;
use call_structure::Order;
use call_structure::definitions::definitions;
use indexmap::IndexMap;
use ir_arena::{Ir, IrFunction};
use ir_cuts::cuts;
use ir_expressions::Build;
use sat_base::{At, Memory};
use source_runs::table_numbered;
use sqlite_items::Items;
use std::alloc::Global;
use whole_trees::{defined, functions, main_in, numbers_of, objects};

/// The functions of the tree of a source, in the order of the definitions.
fn tree_functions<'a>(
    alloc: Global,
    bump: &'a Bump,
    typed: &Typed,
    definitions: &IndexMap<u32, At>,
) -> Result<Items<IrFunction<'a>>, Memory>
    requires { AreShort typed.now.objects }
    ensures trees { IfOk result (λ made. map function_of made ≡ functions_along (setting_for typed.now definitions.now.entries) (defined_functions typed.now definitions.now.entries) 0) }
    ensures names { IfOk result (λ made. map (λ function. function.name) made ≡ map (λ number. (function_at typed.now.functions number).name) (numbers_defined definitions.now.entries)) }
{
    let numbers = numbers_of(alloc, typed, definitions)?;
    let defined = defined(alloc, definitions)?;
    let build = Build {
        alloc,
        bump,
        objects: typed.objects.as_slice(),
        table: table_numbered(typed.weights),
        numbers: numbers.as_slice(),
    };
    functions(&build, typed.functions.as_slice(), defined.as_slice())
}

/// The tree of a source, of which the functions are made.
fn with_functions<'a>(
    alloc: Global,
    typed: &Typed,
    definitions: &IndexMap<u32, At>,
    functions: Items<IrFunction<'a>>,
) -> Result<Ir<'a>, Memory>
    ensures functions { IfOk result (λ ir. ir.functions ≡ functions.entry) }
    ensures main { IfOk result (λ ir. ir.main ≡ main_in typed.now definitions.now.entries) }
    ensures objects { IfOk result (λ ir. ir.objects ≡ map (renumbered definitions.now.entries) typed.now.objects) }
    ensures sites { IfOk result (λ ir. ir.sites ≡ typed.now.sites) }
    ensures cuts { IfOk result (λ ir. ir.cuts ≡ cuts_from (map (renumbered definitions.now.entries) typed.now.objects) 0 (map function_of functions.entry)) }
    ensures constants { IfOk result (λ ir. ir.constants ≡ typed.now.constants) }
    ensures weights { IfOk result (λ ir. ir.weights ≡ typed.now.weights) }
{
    let objects = objects(alloc, definitions, typed.objects.as_slice())?;
    let cuts = cuts(alloc, objects.as_slice(), functions.as_slice())?;
    Ok(Ir {
        functions,
        main: main_in(typed, definitions)?,
        objects,
        sites: Items::from_slice(alloc, typed.sites.as_slice())?,
        cuts,
        constants: Items::from_slice(alloc, typed.constants.as_slice())?,
        weights: typed.weights,
    })
}

/// The tree of a lawful source, in the arena: one node for each statement, expression and implied conversion. It is
/// lawful, and does what the source does. The order is one of the source's functions; where there is one, no function reaches itself.
pub fn build<'a>(
    alloc: Global,
    bump: &'a Bump,
    typed: &Typed,
    order: &Order,
) -> Result<Ir<'a>, Memory>
    requires lawful { IsLawful typed.now }
    requires order { IsCallersFirst typed.now order.now.functions }
    ensures tree { IfOk result (IsTreeOf typed.now) }
    ensures lawful { IfOk result IsLawfulTree }
    ensures runs { IfOk result (DoesAs typed.now) }
{
    let definitions = definitions(alloc, typed)?;
    let functions = tree_functions(alloc, bump, typed, &definitions)?;
    with_functions(alloc, typed, &definitions, functions)
}
