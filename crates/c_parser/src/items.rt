// Reads declarations and definitions at file scope (C90, 6.7).

ghost use Rattle.std.specs.Prelude.{map};
ghost use Rattle.c_grammar.specs.Spots.{seen};
ghost use Rattle.right_reading.specs.ReadDeclarations.{objects_at};
ghost use Rattle.right_reading.specs.ReadSource.{extern_flag_at, item_at, typed_item_at, items_at};
ghost use Rattle.right_reading.specs.ReadStatements.{block_with};
ghost use Rattle.token_reader.specs.Gives.{Gives};
ghost use Rattle.c_parser.specs.GivesAll.{GivesAll};

use crate::functions::{FunctionHead, function};
use c_grammar::{ReadRefusal, Spot, Symbol};
use c_tree::Item;
use declaration_parser::{declarator, named_declarator, objects_from, qualifiers};
use expression_parser::type_;
use right_reading::{Qualifiers, Specifiers};
use sqlite_items::Items;
use std::alloc::Global;
use token_reader::{Reader, many};

/// `extern Flag Overflow ;` or `extern int Overflow ;`, whose `extern` has to be ahead.
#[tactic(auto, unfolding(right_reading::specs::ReadSource::extern_flag_at))]
fn extern_flag(reader: &mut Reader<'_>) -> Result<Item, ReadRefusal>
    ensures { Gives (extern_flag_at reader.old) result reader.new }
{
    let at = reader.take(Symbol::Extern)?;
    if !reader.pass_if(Symbol::Flag) {
        reader.take(Symbol::IntWord)?;
    }
    reader.take(Symbol::Overflow)?;
    reader.take(Symbol::Semicolon)?;
    Ok(Item::ExternFlag { at })
}

/// A declaration or a definition at file scope, whose parts have at most this height.
#[tactic(auto, unfolding(right_reading::specs::ReadSource::item_at, right_reading::specs::ReadSource::qualified_item_at))]
fn item(alloc: Global, reader: &mut Reader<'_>, limit: u32) -> Result<Item, ReadRefusal>
    ensures { Gives (item_at (block_with objects_at limit) limit reader.old) result reader.new }
{
    if reader.ahead().is(Symbol::Extern) {
        return extern_flag(reader);
    }
    let quals = qualifiers(reader);
    if !quals.is_const && reader.pass_if(Symbol::Void) {
        let head = FunctionHead {
            quals,
            gives: None,
            name: reader.name(alloc)?,
        };
        return Ok(Item::Function(function(alloc, reader, head, limit)?));
    }
    typed_item(alloc, reader, quals, limit)
}

/// What follows the qualifiers where a type does: a function, which no `const` may precede, or objects.
#[tactic(auto, unfolding(right_reading::specs::ReadSource::typed_item_at, right_reading::specs::ReadSource::after_type_at, right_reading::specs::ReadSource::after_name_at))]
fn typed_item(
    alloc: Global,
    reader: &mut Reader<'_>,
    quals: Qualifiers,
    limit: u32,
) -> Result<Item, ReadRefusal>
    ensures { Gives (typed_item_at (block_with objects_at limit) limit quals reader.old) result reader.new }
{
    let (_, width) = type_(reader)?;
    let specifiers = Specifiers { quals, width };
    if reader.ahead().is(Symbol::Star) {
        let first = declarator(alloc, reader, specifiers, limit)?;
        return Ok(Item::Objects(objects_from(alloc, reader, specifiers, first, limit)?));
    }
    let name = reader.name(alloc)?;
    if reader.ahead().is(Symbol::OpenParen) && !quals.is_const {
        let head = FunctionHead {
            quals,
            gives: Some(width),
            name,
        };
        return Ok(Item::Function(function(alloc, reader, head, limit)?));
    }
    let first = named_declarator(alloc, reader, specifiers, name, limit)?;
    Ok(Item::Objects(objects_from(alloc, reader, specifiers, first, limit)?))
}

/// One item or more, up to the last token.
#[tactic(auto, unfolding(right_reading::specs::ReadSource::items_at))]
fn items(alloc: Global, reader: &mut Reader<'_>, limit: u32) -> Result<Items<Item>, ReadRefusal>
    ensures { Gives (items_at (block_with objects_at limit) limit reader.old) result reader.new }
{
    let mut items = Items::new(alloc);
    items.push(item(alloc, reader, limit)?)?;
    many(
        reader,
        items,
        |symbol| !symbol.is(Symbol::End),
        |reader| item(alloc, reader, limit),
    )
}

/// The items that all these tokens spell, the last of which stands for the end. Their parts have at most this height.
pub fn parsed(alloc: Global, spots: &[Spot<'_>], limit: u32) -> Result<Items<Item>, ReadRefusal>
    ensures { GivesAll (items_at (block_with objects_at limit) limit (map seen spots.now)) result }
{
    let mut reader = Reader::new(spots);
    let items = items(alloc, &mut reader, limit)?;
    Ok(items)
}
