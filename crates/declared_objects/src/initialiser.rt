// The initialisers of objects (C90, 6.5.7), and pointers among objects.

ghost use Rattle.std.specs.Prelude.{◌≡◌};
ghost use Rattle.std.specs.List.{list_any};
ghost use Rattle.declared_objects.specs.Initialisers.{some_variable, is_constant_argument, is_bad_row, bad_rows, bad_values, bad_initialiser, pointer_use};

use crate::length::{columns, elements, is_array, rows};
use c_tree::{Arg, Decl, Expr, Init, Row};
use constant_expressions::folded;

/// Whether one of the values is no constant expression.
fn some_variable(values: &[Expr]) -> bool
    ensures { result ≡ some_variable values.now }
{
    for value in values {
        if folded(value).is_none() {
            return true;
        }
    }
    false
}

fn is_constant_argument(arg: &Arg) -> bool
    ensures { result ≡ is_constant_argument arg.now }
{
    match arg {
        Arg::Value(value) => folded(value).is_some(),
        Arg::Address { .. } => false,
    }
}

/// Whether a row has a value that is no constant, or more values than there are columns.
fn is_bad_row(columns: Option<usize>, row: &Row) -> bool
    ensures { result ≡ is_bad_row columns row.now }
{
    if some_variable(row.values.as_slice()) {
        return true;
    }
    match columns {
        Some(most) => most < row.values.len(),
        None => false,
    }
}

fn some_bad_row(columns: Option<usize>, rows: &[Row]) -> bool
    ensures { result ≡ list_any (is_bad_row columns) rows.now }
{
    for row in rows {
        if is_bad_row(columns, row) {
            return true;
        }
    }
    false
}

fn bad_rows(decl: &Decl, listed: &[Row]) -> bool
    ensures { result ≡ bad_rows decl.now listed.now }
{
    if !is_array(decl) || decl.cols.is_none() {
        return true;
    }
    match rows(decl) {
        Some(most) => most < listed.len() || some_bad_row(columns(decl), listed),
        None => some_bad_row(columns(decl), listed),
    }
}

fn bad_values(decl: &Decl, values: &[Expr]) -> bool
    ensures { result ≡ bad_values decl.now values.now }
{
    if !is_array(decl) || some_variable(values) {
        return true;
    }
    match elements(decl) {
        Some(most) => most < values.len() as u128,
        None => false,
    }
}

/// Whether the initialiser does not fit its object: an item that is no constant expression, too many
/// items, rows for an array of one dimension, a list for a scalar or a view, one value for an array, or,
/// where the object is static, a value that is no constant expression.
pub fn has_bad_initialiser(decl: &Decl, is_static: bool) -> bool
    ensures { result ≡ bad_initialiser decl.now is_static }
{
    match &decl.init {
        Init::Nothing => false,
        Init::One(arg) => is_array(decl) || is_static && !is_constant_argument(arg),
        Init::Flat(values) => bad_values(decl, values.as_slice()),
        Init::Rows(listed) => bad_rows(decl, listed.as_slice()),
    }
}

/// Whether what is declared is a pointer that is static, or that has no initialiser.
pub fn misuses_pointer(decl: &Decl, is_static: bool) -> bool
    ensures { result ≡ pointer_use decl.now is_static }
{
    decl.pointer && (is_static || matches!(decl.init, Init::Nothing))
}
