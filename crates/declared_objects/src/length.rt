// The lengths of arrays (C90, 6.5.4.2 and 6.5.7).

ghost use Rattle.std.specs.Prelude.{◌≡◌, ◌<◌, IfSome, option_map};
ghost use Rattle.declared_objects.specs.Lengths.{length_in, is_bad, is_bad_if_any, is_array, columns_of, rows_listed, rows_of, elements_of, is_list, bad_length};

use c_tree::{Decl, Dim, Init};
use constant_expressions::folded;

/// The length that is written, where it is a constant of at least 1.
fn length_in(dim: &Dim) -> Option<usize>
    ensures value { result ≡ length_in dim.now }
    ensures positive { IfSome result (λ length. 0 < length) }
{
    let Some(length) = &dim.length else {
        return None;
    };
    match folded(length) {
        Some(value) if value > 0 => Some(value.unsigned_abs() as usize),
        _ => None,
    }
}

/// Whether a length is written that is no constant of at least 1.
pub fn is_bad(dim: &Dim) -> bool
    ensures { result ≡ is_bad dim.now }
{
    dim.length.is_some() && length_in(dim).is_none()
}

fn is_bad_if_any(dim: &Option<Dim>) -> bool
    ensures { result ≡ is_bad_if_any dim.now }
{
    match dim {
        Some(dim) => is_bad(dim),
        None => false,
    }
}

/// Whether what is declared is an array, and neither a view nor a scalar.
pub fn is_array(decl: &Decl) -> bool
    ensures { result ≡ is_array decl.now }
{
    !decl.pointer && decl.rows.is_some()
}

/// The number of columns: none where there is no second pair of brackets, and where no good length stands
/// in it.
pub fn columns(decl: &Decl) -> Option<usize>
    ensures { result ≡ columns_of decl.now }
{
    match &decl.cols {
        Some(dim) => length_in(dim),
        None => None,
    }
}

/// The number of rows that the list fills.
fn rows_listed(init: &Init, cols: &Option<Dim>) -> Option<usize>
    ensures { result ≡ rows_listed init.now cols.now }
{
    match init {
        Init::Rows(rows) => Some(rows.len()),
        Init::Flat(values) => match cols {
            Some(dim) => match length_in(dim) {
                Some(columns) => Some(values.len().div_ceil(columns)),
                None => None,
            },
            None => Some(values.len()),
        },
        _ => None,
    }
}

/// The number of rows, or the length of an array of one dimension: what the first brackets say, or what a
/// list fills where they are empty. None where there are no brackets, and where neither says it.
pub fn rows(decl: &Decl) -> Option<usize>
    ensures { result ≡ rows_of decl.now }
{
    match &decl.rows {
        Some(dim) => if dim.length.is_some() {
            length_in(dim)
        } else {
            rows_listed(&decl.init, &decl.cols)
        },
        None => None,
    }
}

/// The number of elements of an array, where its lengths are good.
pub fn elements(decl: &Decl) -> Option<u128>
    ensures { result ≡ elements_of decl.now }
{
    let rows = rows(decl)?;
    match &decl.cols {
        Some(dim) => match length_in(dim) {
            Some(columns) => Some(rows as u128 * columns as u128),
            None => None,
        },
        None => Some(rows as u128),
    }
}

fn is_list(init: &Init) -> bool
    ensures { result ≡ is_list init.now }
{
    matches!(init, Init::Flat(_) | Init::Rows(_))
}

/// Whether a length of an array is no constant of at least 1, or is missing where no list stands for it.
pub fn has_bad_length(decl: &Decl) -> bool
    ensures { result ≡ bad_length decl.now }
{
    let lacks_length = match &decl.rows {
        Some(dim) => dim.length.is_none() && !is_list(&decl.init),
        None => false,
    };
    is_array(decl) && (is_bad_if_any(&decl.rows) || is_bad_if_any(&decl.cols) || lacks_length)
}
