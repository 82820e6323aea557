// A source whose names are tied.

ghost use Rattle.std.specs.Prelude.{◌≡◌, IfOk, IfErr};
ghost use Rattle.std.specs.List.Sorted.{IsPermutation, IsNonDecreasingBy, IsStableByKey};
ghost use Rattle.std.specs.Ordering.{nat_cmp};
ghost use Rattle.tied_names.specs.Numbers.{sites_in, token_of};
ghost use Rattle.c_types.specs.Sources.{tied_source};
ghost use Rattle.c_types.specs.Tied.{IsTied, IsTyped, IsRefused, out_of_memory, AreParts};

use crate::constants::constants;
use crate::items::Source;
use c_faults::first_fault;
use c_seen::seen_in;
use c_tree::Program;
use c_typed::{Typed, TypedFunction};
use operator_meaning::{Object, Site};
use sat_base::{Fault, FaultKind, Memory, Pos};
use sqlite_items::Items;
use std::alloc::Global;
use tied_names::{Facts, Note};

/// The objects and functions of a source, and what is noted in it.
#[derive(Drop)]
struct Parts {
    objects: Items<Object>,
    functions: Items<TypedFunction>,
    notes: Vec<Note>,
}

/// What becomes of a source with these facts.
fn parts_of(alloc: Global, program: &Program, facts: &Facts) -> Result<Parts, Memory>
    ensures { IfOk result (λ parts. AreParts parts (tied_source program.now.items facts.now.tokens facts.now.exposed.keys)) }
{
    let items = program.items.as_slice();
    let mut source = Source::new(alloc, items, facts);
    source.items(items)?;
    let Source {
        ties,
        functions,
        notes,
    } = source;
    Ok(Parts {
        objects: ties.objects,
        functions,
        notes,
    })
}

/// The sites that are noted, in the order of their tokens.
fn sites_of(alloc: Global, notes: &[Note]) -> Result<Vec<Site>, Memory>
    ensures same { IfOk result (λ sites. IsPermutation (sites_in notes.now) sites.items) }
    ensures in_order { IfOk result (λ sites. IsNonDecreasingBy token_of sites.items) }
    ensures stable { IfOk result (λ sites. IsStableByKey token_of nat_cmp (sites_in notes.now) sites.items) }
{
    let mut sites = Vec::new(alloc);
    for note in notes {
        match note {
            Note::Site(site) => sites.push(*site)?,
            Note::Exposed(_) => {},
        }
    }
    sites.sort_by_key(|site| site.tok)?;
    Ok(sites)
}

/// The source with its names tied. The first time its sites and exposed objects are found, the second time the sites
/// have their numbers.
fn tied(alloc: Global, program: &Program) -> Result<Typed, Memory>
    ensures { IfOk result (IsTied program.now) }
{
    let seen = seen_in(alloc, program)?;
    let nothing = Facts::nothing(alloc);
    let found = parts_of(alloc, program, &nothing)?;
    let sites = sites_of(alloc, found.notes.as_slice())?;
    let facts = Facts::of(alloc, sites.as_slice(), found.notes.as_slice())?;
    let whole = parts_of(alloc, program, &facts)?;
    Ok(Typed {
        objects: whole.objects,
        functions: whole.functions,
        sites: Items::from_vec(sites),
        constants: constants(alloc, seen.as_slice())?,
        weights: 1,
    })
}

/// Want of memory, which has no place.
fn out_of_memory() -> Fault
    ensures { result ≡ out_of_memory }
{
    Fault {
        kind: FaultKind::Memory,
        tok: 0,
        pos: Pos { line: 1, col: 1 },
    }
}

/// The source with its names tied: objects and functions by their numbers, each implied conversion written out, and
/// the sites numbered in the order of their tokens.
///
/// # Errors
/// Exactly where the source has a fault or passes a limit: the one at the least token, and of several there the first
/// by kind. And for want of memory, whose token is 0.
pub fn typed(alloc: Global, program: &Program) -> Result<Typed, Fault>
    ensures typed { IfOk result (IsTyped program.now) }
    ensures refused { IfErr result (IsRefused program.now) }
{
    match first_fault(alloc, program) {
        Ok(Some(fault)) => Err(fault),
        Ok(None) => match tied(alloc, program) {
            Ok(whole) => Ok(whole),
            Err(Memory) => Err(out_of_memory()),
        },
        Err(Memory) => Err(out_of_memory()),
    }
}
