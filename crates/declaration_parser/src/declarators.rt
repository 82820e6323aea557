// Reads declarations of objects (C90, 6.5.4).

ghost use Rattle.right_reading.specs.ReadDeclarations.{objects_at, objects_from_at, declarators_at, declarator_at, view_at, named_declarator_at};
ghost use Rattle.token_reader.specs.Gives.{Gives};

use crate::dimensions::dimensions;
use crate::initialisers::initialiser;
use crate::specifiers::specifiers;
use c_grammar::{ReadRefusal, Symbol};
use c_tree::{Decl, Init, Objects};
use expression_parser::argument;
use right_reading::Specifiers;
use sat_base::Named;
use sqlite_items::Items;
use std::alloc::Global;
use token_reader::{Reader, more_listed};

/// A declaration of objects, whose expressions have at most this height.
#[tactic(auto, unfolding(right_reading::specs::ReadDeclarations::objects_at))]
pub fn objects(alloc: Global, reader: &mut Reader<'_>, limit: u32) -> Result<Objects, ReadRefusal>
    ensures { Gives (objects_at limit reader.old) result reader.new }
{
    let specifiers = specifiers(reader)?;
    let first = declarator(alloc, reader, specifiers, limit)?;
    objects_from(alloc, reader, specifiers, first, limit)
}

/// The declaration of objects that begins so, up to its `;`.
#[tactic(auto, unfolding(right_reading::specs::ReadDeclarations::objects_from_at))]
pub fn objects_from(
    alloc: Global,
    reader: &mut Reader<'_>,
    specifiers: Specifiers,
    first: Decl,
    limit: u32,
) -> Result<Objects, ReadRefusal>
    ensures { Gives (objects_from_at limit specifiers first reader.old) result reader.new }
{
    let decls = declarators(alloc, reader, specifiers, first, limit)?;
    reader.take(Symbol::Semicolon)?;
    Ok(Objects {
        at: specifiers.quals.at,
        decls,
    })
}

/// The first declared object, and those that follow it after commas.
#[tactic(auto, unfolding(right_reading::specs::ReadDeclarations::declarators_at))]
fn declarators(
    alloc: Global,
    reader: &mut Reader<'_>,
    specifiers: Specifiers,
    first: Decl,
    limit: u32,
) -> Result<Items<Decl>, ReadRefusal>
    ensures { Gives (declarators_at limit specifiers first reader.old) result reader.new }
{
    let mut decls = Items::new(alloc);
    decls.push(first)?;
    more_listed(
        reader,
        decls,
        |reader| declarator(alloc, reader, specifiers, limit),
    )
}

/// A declared object with its initialiser (C90, 6.5.4).
#[tactic(auto, unfolding(right_reading::specs::ReadDeclarations::declarator_at))]
pub fn declarator(
    alloc: Global,
    reader: &mut Reader<'_>,
    specifiers: Specifiers,
    limit: u32,
) -> Result<Decl, ReadRefusal>
    ensures { Gives (declarator_at limit specifiers reader.old) result reader.new }
{
    if reader.ahead().is(Symbol::Star) {
        return view(alloc, reader, specifiers, limit);
    }
    let name = reader.name(alloc)?;
    named_declarator(alloc, reader, specifiers, name, limit)
}

/// A declared view with its initialiser, whose `*` has to be ahead (C90, 6.5.4.1).
#[tactic(auto, unfolding(right_reading::specs::ReadDeclarations::view_at, right_reading::specs::ReadDeclarations::view_start_at))]
fn view(
    alloc: Global,
    reader: &mut Reader<'_>,
    specifiers: Specifiers,
    limit: u32,
) -> Result<Decl, ReadRefusal>
    ensures { Gives (view_at limit specifiers reader.old) result reader.new }
{
    let at = reader.take(Symbol::Star)?;
    let name = reader.name(alloc)?;
    let init = if reader.pass_if(Symbol::Equal) {
        Init::One(argument(alloc, reader, limit)?.tree)
    } else {
        Init::Nothing
    };
    Ok(Decl {
        at,
        name,
        width: specifiers.width,
        pointer: true,
        rows: None,
        cols: None,
        init,
        is_static: specifiers.quals.is_static,
        is_const: specifiers.quals.is_const,
    })
}

/// The declared scalar or array that begins with this name, which is read already.
#[tactic(auto, unfolding(right_reading::specs::ReadDeclarations::named_declarator_at, right_reading::specs::ReadDeclarations::start_at))]
pub fn named_declarator(
    alloc: Global,
    reader: &mut Reader<'_>,
    specifiers: Specifiers,
    name: Named,
    limit: u32,
) -> Result<Decl, ReadRefusal>
    ensures { Gives (named_declarator_at limit specifiers name reader.old) result reader.new }
{
    let (rows, cols) = dimensions(alloc, reader, limit)?;
    let init = if reader.pass_if(Symbol::Equal) {
        initialiser(alloc, reader, limit)?
    } else {
        Init::Nothing
    };
    Ok(Decl {
        at: name.at,
        name,
        width: specifiers.width,
        pointer: false,
        rows,
        cols,
        init,
        is_static: specifiers.quals.is_static,
        is_const: specifiers.quals.is_const,
    })
}
