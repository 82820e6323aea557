// What objects start with: values of constant expressions, row by row, and 0 for the rest.

ghost use Rattle.std.specs.Prelude.{◌≡◌, ◌++◌, ℤ, pos, IfOk, OnOk, flat_map, map, replicate};
ghost use Rattle.tied_objects.specs.Initial.{in_width, constant, filled, filled_row, element_count, column_count, given_value, initial_values};

use c_tree::{Arg, Decl, Expr, Init, Row};
use constant_expressions::folded;
use declared_objects::{columns, elements, is_array};
use sat_base::{Memory, Width, low16};
use sqlite_items::Items;
use std::alloc::Global;

fn in_width(width: Width, value: i32) -> i32
    ensures { result ≡ in_width width value }
{
    match width {
        Width::W16 => low16(value),
        Width::W32 => value,
    }
}

/// The value of a constant expression, converted to the width.
fn constant(width: Width, e: &Expr) -> i32
    ensures { result ≡ constant width e.now }
{
    match folded(e) {
        Some(value) => in_width(width, value),
        None => 0,
    }
}

fn add_zeros(values: &mut Items<i32>, count: usize) -> Result<(), Memory>
    ensures { OnOk result (values.new ≡ values.old ++ replicate count (pos 0)) }
{
    let mut left = count;
    while left > 0 {
        values.push(0)?;
        left -= 1;
    }
    Ok(())
}

fn add_constants(values: &mut Items<i32>, width: Width, listed: &[Expr]) -> Result<(), Memory>
    ensures { OnOk result (values.new ≡ values.old ++ map (constant width) listed.now) }
{
    for e in listed {
        values.push(constant(width, e))?;
    }
    Ok(())
}

/// Adds the values of a row, and 0 for the rest of its columns.
fn add_row(
    values: &mut Items<i32>,
    width: Width,
    columns: usize,
    listed: &[Expr],
) -> Result<(), Memory>
    ensures { OnOk result (values.new ≡ values.old ++ filled columns (map (constant width) listed.now)) }
{
    add_constants(values, width, listed)?;
    add_zeros(values, columns.saturating_sub(listed.len()))
}

fn add_rows(
    values: &mut Items<i32>,
    width: Width,
    columns: usize,
    rows: &[Row],
) -> Result<(), Memory>
    ensures { OnOk result (values.new ≡ values.old ++ flat_map (filled_row width columns) rows.now) }
{
    for row in rows {
        add_row(values, width, columns, row.values.as_slice())?;
    }
    Ok(())
}

/// The number of elements: a scalar has one.
fn element_count(decl: &Decl) -> Result<usize, Memory>
    ensures { IfOk result (λ count. count ≡ element_count decl.now) }
{
    if !is_array(decl) {
        return Ok(1);
    }
    match elements(decl) {
        Some(count) => match usize::try_from(count) {
            Ok(count) => Ok(count),
            Err(_) => Err(Memory),
        },
        None => Ok(0),
    }
}

fn column_count(decl: &Decl) -> usize
    ensures { result ≡ column_count decl.now }
{
    columns(decl).unwrap_or(0)
}

/// The one value that is given, where it is a constant expression.
fn given_value(alloc: Global, width: Width, arg: &Arg) -> Result<Option<Items<i32>>, Memory>
    ensures { IfOk result (λ values. values ≡ given_value width arg.now) }
{
    match arg {
        Arg::Value(e) => match folded(e) {
            Some(value) => {
                let mut values = Items::new(alloc);
                values.push(in_width(width, value))?;
                Ok(Some(values))
            },
            None => Ok(None),
        },
        Arg::Address { .. } => Ok(None),
    }
}

fn listed_values(alloc: Global, decl: &Decl, listed: &[Expr]) -> Result<Items<i32>, Memory>
    ensures { IfOk result (λ values. values ≡ filled (element_count decl.now) (map (constant decl.now.width) listed.now)) }
{
    let mut values = Items::new(alloc);
    add_row(&mut values, decl.width, element_count(decl)?, listed)?;
    Ok(values)
}

fn row_values(alloc: Global, decl: &Decl, rows: &[Row]) -> Result<Items<i32>, Memory>
    ensures { IfOk result (λ values. values ≡ filled (element_count decl.now) (flat_map (filled_row decl.now.width (column_count decl.now)) rows.now)) }
{
    let mut values = Items::new(alloc);
    add_rows(&mut values, decl.width, column_count(decl), rows)?;
    let rest = element_count(decl)?.saturating_sub(values.len());
    add_zeros(&mut values, rest)?;
    Ok(values)
}

/// All values that the object starts with; none for a view, and where the one value is no constant expression.
pub(crate) fn initial_values(alloc: Global, decl: &Decl) -> Result<Option<Items<i32>>, Memory>
    ensures { IfOk result (λ values. values ≡ initial_values decl.now) }
{
    if decl.pointer {
        return Ok(None);
    }
    match &decl.init {
        Init::Nothing => Ok(Some(listed_values(alloc, decl, &[])?)),
        Init::One(arg) => given_value(alloc, decl.width, arg),
        Init::Flat(listed) => Ok(Some(listed_values(alloc, decl, listed.as_slice())?)),
        Init::Rows(rows) => Ok(Some(row_values(alloc, decl, rows.as_slice())?)),
    }
}
