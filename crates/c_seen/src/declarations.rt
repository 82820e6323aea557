// What is seen in declarations of objects.
#![tactic(auto, using(crate::proofs::Lists::lists))]

ghost use Rattle.std.specs.Prelude.{◌≡◌, ◌++◌, OnOk, flat_map, nat_lt};
ghost use Rattle.c_seen.specs.Declarations.{numbers, row, dimension, wanted_of, initialiser, elements_by, object, meaning_of_declared, seen_in_declared, after_declared, seen_in_objects, after_objects};
ghost use Rattle.declared_objects.specs.Lengths.{elements_of};
ghost use Rattle.c_seen.specs.Meanings.{names_of, kind_of};

use crate::expressions::{argument, expression};
use crate::scope::{Scope, kind_of};
use crate::seen::{Kind, Meaning, Need, Seen, SeenObject, View, Wanted};
use c_tree::{Decl, Dim, Expr, Init, Row};
use declared_objects::{elements, has_bad_initialiser, has_bad_length, misuses_pointer};
use sat_base::Memory;

fn values(scope: &Scope<'_, '_>, values: &[Expr], seen: &mut Vec<Seen>) -> Result<(), Memory>
    ensures { OnOk result (seen.new.items ≡ seen.old.items ++ numbers (names_of scope.now) values.now) }
{
    for value in values {
        expression(scope, value, Need::Number, seen)?;
    }
    Ok(())
}

fn rows(scope: &Scope<'_, '_>, rows: &[Row], seen: &mut Vec<Seen>) -> Result<(), Memory>
    ensures { OnOk result (seen.new.items ≡ seen.old.items ++ flat_map (row (names_of scope.now)) rows.now) }
{
    for row in rows {
        values(scope, row.values.as_slice(), seen)?;
    }
    Ok(())
}

pub(crate) fn dimension(
    scope: &Scope<'_, '_>,
    dim: &Option<Dim>,
    seen: &mut Vec<Seen>,
) -> Result<(), Memory>
    ensures { OnOk result (seen.new.items ≡ seen.old.items ++ dimension (names_of scope.now) dim.now) }
{
    match dim {
        Some(dim) => match &dim.length {
            Some(length) => expression(scope, length, Need::Number, seen),
            None => Ok(()),
        },
        None => Ok(()),
    }
}

fn wanted_by(kind: Kind, decl: &Decl) -> Wanted
    ensures { result ≡ wanted_of kind decl.now }
{
    match kind {
        Kind::View => Wanted::View(View {
            width: decl.width,
            is_const: decl.is_const,
        }),
        Kind::Scalar => Wanted::Number,
        Kind::Array => Wanted::Nothing,
        Kind::Table => Wanted::Nothing,
    }
}

fn initialiser(scope: &Scope<'_, '_>, decl: &Decl, seen: &mut Vec<Seen>) -> Result<(), Memory>
    ensures { OnOk result (seen.new.items ≡ seen.old.items ++ initialiser (names_of scope.now) decl.now decl.now.init) }
{
    match &decl.init {
        Init::Nothing => Ok(()),
        Init::One(arg) => argument(scope, arg, wanted_by(kind_of(decl), decl), seen),
        Init::Flat(listed) => values(scope, listed.as_slice(), seen),
        Init::Rows(listed) => rows(scope, listed.as_slice(), seen),
    }
}

fn elements_in(kind: Kind, elements: Option<u128>) -> u128
    ensures { result ≡ elements_by kind elements }
{
    match kind {
        Kind::View => 0,
        Kind::Scalar => 1,
        Kind::Array => elements.unwrap_or(0),
        Kind::Table => elements.unwrap_or(0),
    }
}

fn object(decl: &Decl, is_local: bool) -> SeenObject
    ensures { result ≡ object decl.now is_local }
{
    let is_static = !is_local || decl.is_static;
    SeenObject {
        at: decl.name.at,
        kind: kind_of(decl),
        width: decl.width,
        elements: elements_in(kind_of(decl), elements(decl)),
        is_local,
        has_bad_initialiser: has_bad_initialiser(decl, is_static),
        has_bad_length: has_bad_length(decl),
        misuses_pointer: misuses_pointer(decl, is_static),
    }
}

fn meaning(decl: &Decl) -> Meaning
    ensures { result ≡ meaning_of_declared decl.now }
{
    Meaning::Object {
        kind: kind_of(decl),
        width: decl.width,
        is_const: decl.is_const,
    }
}

fn declared<'a>(
    scope: &mut Scope<'_, 'a>,
    depth: u32,
    decl: &'a Decl,
    seen: &mut Vec<Seen>,
) -> Result<(), Memory>
    ensures seen { OnOk result (seen.new.items ≡ seen.old.items ++ seen_in_declared (names_of scope.old) depth decl.now) }
    ensures names { OnOk result (names_of scope.new ≡ after_declared (names_of scope.old) depth decl.now) }
{
    dimension(scope, &decl.rows, seen)?;
    dimension(scope, &decl.cols, seen)?;
    initialiser(scope, decl, seen)?;
    let name = decl.name.name.as_bytes();
    seen.push(Seen::Name {
        at: decl.name.at,
        is_taken: scope.is_taken(name, depth, false),
    })?;
    seen.push(Seen::Object(object(decl, depth > 0)))?;
    scope.declare(name, depth, meaning(decl))
}

pub(crate) fn objects<'a>(
    scope: &mut Scope<'_, 'a>,
    depth: u32,
    decls: &'a [Decl],
    seen: &mut Vec<Seen>,
) -> Result<(), Memory>
    ensures seen { OnOk result (seen.new.items ≡ seen.old.items ++ seen_in_objects (names_of scope.old) depth decls.now) }
    ensures names { OnOk result (names_of scope.new ≡ after_objects (names_of scope.old) depth decls.now) }
{
    for decl in decls {
        declared(scope, depth, decl, seen)?;
    }
    Ok(())
}
