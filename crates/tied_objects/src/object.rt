// Objects with all that is known of them.

ghost use Rattle.std.specs.Prelude.{◌≡◌, IfOk, unwrap_or};
ghost use Rattle.tied_objects.specs.Objects.{storage_of, rows_in, columns_in, object_of, name_of, object_of_parameter};

use crate::initial::initial_values;
use c_tree::{Decl, Param};
use declared_objects::{columns, is_array, rows};
use operator_meaning::{Object, Storage};
use sat_base::{Memory, Name};
use std::alloc::Global;
use tied_names::is_view;

fn storage_of(decl: &Decl, function: Option<u32>) -> Storage
    ensures { result ≡ storage_of decl.now function }
{
    if function.is_none() || decl.is_static {
        Storage::Static
    } else {
        Storage::Automatic
    }
}

fn number_of(length: Option<usize>) -> Result<u32, Memory>
    ensures { IfOk result (λ number. number ≡ unwrap_or length 0) }
{
    match length {
        Some(length) => match u32::try_from(length) {
            Ok(number) => Ok(number),
            Err(_) => Err(Memory),
        },
        None => Ok(0),
    }
}

fn rows_in(decl: &Decl) -> Result<u32, Memory>
    ensures { IfOk result (λ number. number ≡ rows_in decl.now) }
{
    if is_array(decl) {
        number_of(rows(decl))
    } else {
        Ok(0)
    }
}

fn columns_in(decl: &Decl) -> Result<u32, Memory>
    ensures { IfOk result (λ number. number ≡ columns_in decl.now) }
{
    if is_array(decl) {
        number_of(columns(decl))
    } else {
        Ok(0)
    }
}

/// The object that is declared, at file scope or in the function of this number.
///
/// # Errors
/// For want of memory alone.
pub fn declared_object(
    alloc: Global,
    decl: &Decl,
    function: Option<u32>,
    exposed: bool,
) -> Result<Object, Memory>
    ensures { IfOk result (λ object. object ≡ object_of decl.now function exposed) }
{
    Ok(Object {
        name: Name::from_slice(alloc, decl.name.name.as_bytes())?,
        width: decl.width,
        rows: rows_in(decl)?,
        columns: columns_in(decl)?,
        storage: storage_of(decl, function),
        view: decl.pointer,
        is_const: decl.is_const,
        exposed,
        initial: initial_values(alloc, decl)?,
        function,
    })
}

fn name_of(alloc: Global, param: &Param) -> Result<Name, Memory>
    ensures { IfOk result (λ name. name ≡ name_of param.now.name) }
{
    match &param.name {
        Some(name) => Ok(Name::from_slice(alloc, name.name.as_bytes())?),
        None => Ok(Name::from_slice(alloc, &[])?),
    }
}

/// The object that a parameter of the function of this number is.
///
/// # Errors
/// For want of memory alone.
pub fn parameter_object(
    alloc: Global,
    param: &Param,
    function: u32,
    exposed: bool,
) -> Result<Object, Memory>
    ensures { IfOk result (λ object. object ≡ object_of_parameter param.now function exposed) }
{
    Ok(Object {
        name: name_of(alloc, param)?,
        width: param.width,
        rows: 0,
        columns: 0,
        storage: Storage::Parameter,
        view: is_view(param),
        is_const: param.is_const,
        exposed,
        initial: None,
        function: Some(function),
    })
}
