// The numbers that functions have among those that are defined.

ghost use Rattle.std.specs.Prelude.{◌≡◌, ◌+◌, IfOk, unwrap_or, position, map};
ghost use Rattle.typed_meaning.specs.Observed.{is_main};
ghost use Rattle.whole_trees.specs.Sources.{number_in, numbers_of, main_in, numbers_defined};

use c_typed::{Typed, TypedFunction};
use indexmap::IndexMap;
use sat_base::{At, Memory};
use sqlite_items::Items;
use std::alloc::Global;

/// A place as a number, where there is one; else 0. No source has so many functions that a place has no number.
fn number_at(place: Option<usize>) -> Result<u32, Memory>
    ensures { IfOk result (λ number. number ≡ unwrap_or place 0) }
{
    match place {
        Some(place) => u32::try_from(place).map_err(|_| Memory),
        None => Ok(0),
    }
}

/// The number that a function has among those that are defined; 0 where it is not defined.
pub(crate) fn number_in(definitions: &IndexMap<u32, At>, number: u32) -> Result<u32, Memory>
    ensures { IfOk result (λ place. place ≡ number_in definitions.now.entries number) }
{
    number_at(definitions.get_index_of(&number))
}

/// The number after this one. A tree with 2^32 cuts or functions does not fit in memory.
pub(crate) fn after(number: u32) -> Result<u32, Memory>
    ensures { IfOk result (λ next. next ≡ number + 1) }
{
    number.checked_add(1).ok_or(Memory)
}

/// Of each function of the source its number among those that are defined.
pub fn numbers_of(
    alloc: Global,
    typed: &Typed,
    definitions: &IndexMap<u32, At>,
) -> Result<Items<u32>, Memory>
    ensures { IfOk result (λ numbers. numbers ≡ numbers_of typed.now definitions.now.entries) }
{
    let mut numbers = Items::new(alloc);
    let mut number = 0;
    for _ in typed.functions.as_slice() {
        numbers.push(number_in(definitions, number)?)?;
        number = after(number)?;
    }
    Ok(numbers)
}

/// The functions that are defined, by their numbers in the source.
pub fn defined(alloc: Global, definitions: &IndexMap<u32, At>) -> Result<Items<u32>, Memory>
    ensures { IfOk result (λ numbers. numbers ≡ numbers_defined definitions.now.entries) }
{
    let numbers = definitions.keys().map(|number| *number).collect(alloc)?;
    Ok(Items::from_vec(numbers))
}

/// The place of `main` in a source: the first function of that name that is defined.
fn main_of(functions: &[TypedFunction]) -> Option<usize>
    ensures { result ≡ position is_main functions.now }
{
    functions.iter().position(|f| f.name.as_bytes() == b"main".as_slice() && f.body.is_some())
}

/// The number of `main` among the functions that are defined.
pub fn main_in(typed: &Typed, definitions: &IndexMap<u32, At>) -> Result<u32, Memory>
    ensures { IfOk result (λ number. number ≡ main_in typed.now definitions.now.entries) }
{
    let main = number_at(main_of(typed.functions.as_slice()))?;
    number_in(definitions, main)
}
