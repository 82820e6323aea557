// Declarations of objects, and how these start.

ghost use Rattle.std.specs.Prelude.{◌≡◌, ◌++◌, IfOk, OnOk, length};
ghost use Rattle.tied_names.specs.Ties.{here_of};
ghost use Rattle.tied_objects.specs.Objects.{object_of};
ghost use Rattle.tied_statements.specs.Declarations.{tie_to, after_object, after_declared, after_objects, asked_by, start_value, starts_of, starts_in_lists};

use c_tree::{Decl, Init, Objects};
use c_typed::{Start, TypedArg};
use operator_meaning::Object;
use sat_base::Memory;
use sqlite_items::Items;
use tied_expressions::argument;
use tied_names::{Asked, Note, Tie, TiedObject, Ties};
use tied_objects::declared_object;

/// What a name is tied to that declares this object.
fn tie_to(number: u32, object: &Object) -> Tie
    ensures { result ≡ tie_to number object.now }
{
    Tie::Object(TiedObject {
        number,
        width: object.width,
        rows: object.rows,
        columns: object.columns,
        view: object.view,
    })
}

/// Declares the object under the name, and answers its number.
///
/// # Errors
/// For want of memory alone.
pub fn declare_object<'a>(
    ties: &mut Ties<'_, 'a>,
    name: &'a [u8],
    object: Object,
) -> Result<u32, Memory>
    ensures number { IfOk result (λ number. number ≡ length (here_of ties.old).objects) }
    ensures after { OnOk result (here_of ties.new ≡ after_object (here_of ties.old) name.now object) }
{
    let number = ties.next_object()?;
    let tie = tie_to(number, &object);
    ties.objects.push(object)?;
    ties.declare(name, tie)?;
    Ok(number)
}

/// Declares an object, at file scope or in the function of this number, and answers the object's number.
fn declared<'a>(
    ties: &mut Ties<'_, 'a>,
    function: Option<u32>,
    decl: &'a Decl,
) -> Result<u32, Memory>
    ensures number { IfOk result (λ number. number ≡ length (here_of ties.old).objects) }
    ensures after { OnOk result (here_of ties.new ≡ after_declared (here_of ties.old) function decl.now) }
{
    let exposed = ties.is_exposed(ties.next_object()?);
    let object = declared_object(ties.alloc, decl, function, exposed)?;
    declare_object(ties, decl.name.name.as_bytes(), object)
}

/// Declares objects at file scope.
///
/// # Errors
/// For want of memory alone.
pub fn objects<'a>(ties: &mut Ties<'_, 'a>, decls: &'a [Decl]) -> Result<(), Memory>
    ensures { OnOk result (here_of ties.new ≡ after_objects (here_of ties.old) decls.now) }
{
    for decl in decls {
        declared(ties, None, decl)?;
    }
    Ok(())
}

fn asked_by(decl: &Decl) -> Asked
    ensures { result ≡ asked_by decl.now }
{
    if decl.pointer {
        Asked::View
    } else {
        Asked::Number(decl.width)
    }
}

/// The one value that the object starts with each time its block is entered, where it has one.
fn start_value(
    ties: &Ties<'_, '_>,
    decl: &Decl,
    notes: &mut Vec<Note>,
) -> Result<Option<TypedArg>, Memory>
    ensures value { IfOk result (λ value. value ≡ (start_value (here_of ties.now) decl.now).value) }
    ensures notes { OnOk result (notes.new.items ≡ notes.old.items ++ (start_value (here_of ties.now) decl.now).notes) }
{
    if decl.is_static {
        return Ok(None);
    }
    match &decl.init {
        Init::One(arg) => Ok(Some(argument(ties, arg, asked_by(decl), notes)?)),
        Init::Nothing => Ok(None),
        Init::Flat(_) => Ok(None),
        Init::Rows(_) => Ok(None),
    }
}

/// Declares objects of a block of the function, and adds how each starts. A name is in scope only after its own
/// initialiser.
fn add_starts<'a>(
    ties: &mut Ties<'_, 'a>,
    function: u32,
    decls: &'a [Decl],
    starts: &mut Items<Start>,
    notes: &mut Vec<Note>,
) -> Result<(), Memory>
    ensures value { OnOk result (starts.new ≡ starts.old ++ (starts_of (here_of ties.old) function decls.now).value) }
    ensures notes { OnOk result (notes.new.items ≡ notes.old.items ++ (starts_of (here_of ties.old) function decls.now).notes) }
    ensures after { OnOk result (here_of ties.new ≡ (starts_of (here_of ties.old) function decls.now).after) }
{
    for decl in decls {
        let value = start_value(ties, decl, notes)?;
        let object = declared(ties, Some(function), decl)?;
        starts.push(Start { object, value })?;
    }
    Ok(())
}

/// How the objects of a block of the function start, which are then declared.
pub(crate) fn starts<'a>(
    ties: &mut Ties<'_, 'a>,
    function: u32,
    lists: &'a [Objects],
    notes: &mut Vec<Note>,
) -> Result<Items<Start>, Memory>
    ensures value { IfOk result (λ starts. starts ≡ (starts_in_lists (here_of ties.old) function lists.now).value) }
    ensures notes { OnOk result (notes.new.items ≡ notes.old.items ++ (starts_in_lists (here_of ties.old) function lists.now).notes) }
    ensures after { OnOk result (here_of ties.new ≡ (starts_in_lists (here_of ties.old) function lists.now).after) }
{
    let mut all = Items::new(ties.alloc);
    for list in lists {
        add_starts(ties, function, list.decls.as_slice(), &mut all, notes)?;
    }
    Ok(all)
}
