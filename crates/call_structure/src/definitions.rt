// The functions that a source defines.

ghost use Rattle.std.specs.Prelude.{◌≡◌, IfOk};
ghost use Rattle.call_structure.specs.Definitions.{AreDefinitions, definition_at};

use c_typed::Typed;
use indexmap::IndexMap;
use sat_base::{At, Memory, Pos};
use std::alloc::Global;

/// The numbers of the functions that have a definition, each with the name in its definition, in the order of the
/// definitions.
pub fn definitions(alloc: Global, typed: &Typed) -> Result<IndexMap<u32, At>, Memory>
    ensures { IfOk result (λ definitions. AreDefinitions typed.now definitions.entries) }
{
    let mut definitions = IndexMap::new(alloc);
    for (number, function) in typed.functions.as_slice().iter().enumerate() {
        if let Some(name) = function.defined {
            definitions.insert(numbered(number)?, name)?;
        }
    }
    definitions.sort_by_key(|_, name| name.tok)?;
    Ok(definitions)
}

/// The number of the function that stands there in the list. No source has so many functions that one has none.
fn numbered(index: usize) -> Result<u32, Memory>
    ensures { IfOk result (λ number. number ≡ index) }
{
    match u32::try_from(index) {
        Ok(number) => Ok(number),
        Err(_) => Err(Memory),
    }
}

/// The number of the function at a place in the order of the definitions, with the name in its definition.
pub(crate) fn definition_at(definitions: &IndexMap<u32, At>, place: usize) -> (u32, At)
    ensures { result ≡ definition_at definitions.now.entries place }
{
    match definitions.get_index(place) {
        Some((number, name)) => (*number, *name),
        None => (
            0,
            At {
                tok: 0,
                pos: Pos { line: 0, col: 0 },
            },
        ),
    }
}
