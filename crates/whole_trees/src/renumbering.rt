// The objects, with the functions that they lie in by their new numbers.

ghost use Rattle.std.specs.Prelude.{◌≡◌, IfOk, map, option_map};
ghost use Rattle.whole_trees.specs.Sources.{number_in, renumbered};

use crate::numbers::number_in;
use indexmap::IndexMap;
use operator_meaning::Object;
use sat_base::{At, Memory, Name};
use sqlite_items::Items;
use std::alloc::Global;

/// The values of an object at the start, as a list of their own.
fn initial(alloc: Global, values: &Option<Items<i32>>) -> Result<Option<Items<i32>>, Memory>
    ensures { IfOk result (λ same. same ≡ values.now) }
{
    match values {
        None => Ok(None),
        Some(values) => Ok(Some(Items::from_slice(alloc, values.as_slice())?)),
    }
}

/// The new number of the function that an object lies in, if it lies in one.
fn function_in(
    definitions: &IndexMap<u32, At>,
    function: Option<u32>,
) -> Result<Option<u32>, Memory>
    ensures { IfOk result (λ number. number ≡ option_map (number_in definitions.now.entries) function) }
{
    match function {
        None => Ok(None),
        Some(function) => Ok(Some(number_in(definitions, function)?)),
    }
}

/// An object, with the new number of its function.
fn renumbered(
    alloc: Global,
    definitions: &IndexMap<u32, At>,
    object: &Object,
) -> Result<Object, Memory>
    ensures { IfOk result (λ same. same ≡ renumbered definitions.now.entries object.now) }
{
    Ok(Object {
        name: Name::from_slice(alloc, object.name.as_bytes())?,
        width: object.width,
        rows: object.rows,
        columns: object.columns,
        storage: object.storage,
        view: object.view,
        is_const: object.is_const,
        exposed: object.exposed,
        initial: initial(alloc, &object.initial)?,
        function: function_in(definitions, object.function)?,
    })
}

/// The objects of a source, with the new numbers of their functions.
pub fn objects(
    alloc: Global,
    definitions: &IndexMap<u32, At>,
    objects: &[Object],
) -> Result<Items<Object>, Memory>
    ensures { IfOk result (λ same. same ≡ map (renumbered definitions.now.entries) objects.now) }
{
    let mut same = Items::new(alloc);
    for object in objects {
        same.push(renumbered(alloc, definitions, object)?)?;
    }
    Ok(same)
}
