// The sites of marks and names, and implied conversions.

ghost use Rattle.std.specs.Prelude.{◌≡◌, ◌++◌, IfOk, OnOk};
ghost use Rattle.tied_names.specs.Ties.{here_of};
ghost use Rattle.tied_expressions.specs.Sites.{unary_kind, binary_kind, number_if, noted_if, exposed_if, with_conversion};

use c_tree::{BinaryMark, UnaryMark};
use c_typed::{TypedExpr, TypedExprKind};
use operator_meaning::{Site, SiteKind};
use sat_base::{At, Memory, Width};
use sqlite_items::Boxed;
use std::alloc::Global;
use tied_names::{Note, TiedObject, Ties};

/// The site that a mark before its operand is, if it is one.
pub(crate) fn unary_kind(mark: UnaryMark) -> Option<SiteKind>
    ensures { result ≡ unary_kind mark }
{
    match mark {
        UnaryMark::Minus => Some(SiteKind::Opposite),
        _ => None,
    }
}

/// The site that a mark between its operands is, if it is one.
pub(crate) fn binary_kind(mark: BinaryMark) -> Option<SiteKind>
    ensures { result ≡ binary_kind mark }
{
    match mark {
        BinaryMark::Plus => Some(SiteKind::Sum),
        BinaryMark::Minus => Some(SiteKind::Difference),
        BinaryMark::Times => Some(SiteKind::Product),
        _ => None,
    }
}

/// The number of the site at the token, where it is a site of this kind, which is then noted.
///
/// # Errors
/// For want of memory alone.
pub fn site_if(
    ties: &Ties<'_, '_>,
    kind: Option<SiteKind>,
    at: At,
    notes: &mut Vec<Note>,
) -> Result<Option<u32>, Memory>
    ensures number { IfOk result (λ number. number ≡ number_if (here_of ties.now) kind at) }
    ensures notes { OnOk result (notes.new.items ≡ notes.old.items ++ noted_if kind at) }
{
    match kind {
        Some(kind) => {
            let number = ties.site_at(at.tok)?;
            notes.push(Note::Site(Site {
                tok: at.tok,
                pos: at.pos,
                kind,
            }))?;
            Ok(Some(number))
        },
        None => Ok(None),
    }
}

/// Notes that `&` is applied to the object, where it is a scalar.
pub(crate) fn expose_if(
    ampersand: bool,
    object: TiedObject,
    notes: &mut Vec<Note>,
) -> Result<(), Memory>
    ensures { OnOk result (notes.new.items ≡ notes.old.items ++ exposed_if ampersand object) }
{
    if ampersand && object.is_scalar() {
        notes.push(Note::Exposed(object.number))?;
    }
    Ok(())
}

/// The expression, converted to the width.
///
/// # Errors
/// For want of memory alone.
pub fn with_conversion(alloc: Global, width: Width, e: TypedExpr) -> Result<TypedExpr, Memory>
    ensures { IfOk result (λ whole. whole ≡ with_conversion width e) }
{
    let at = e.at;
    let part = Boxed::new(alloc, e)?;
    Ok(TypedExpr {
        at,
        brackets: 0,
        kind: TypedExprKind::Convert { width, part },
    })
}
