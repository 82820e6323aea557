// Reads one thing after another.

ghost use Rattle.std.specs.Prelude.{suc, length};
ghost use Rattle.right_reading.specs.Lists.{many, listed_at, more_listed};
ghost use Rattle.right_reading.specs.ReadDeclarations.{braced_at, more_braced};
ghost use Rattle.token_reader.specs.Gives.{GivesBy, GivesWhile};

use crate::reader::Reader;
use c_grammar::{ReadRefusal, Symbol};
use sqlite_items::Items;
use std::alloc::Global;

/// These, and what follows them while the token ahead goes on with such things.
pub fn many<T, G, F>(
    reader: &mut Reader<'_>,
    mut found: Items<T>,
    goes: G,
    item: F,
) -> Result<Items<T>, ReadRefusal>
where
    T: Drop,
    G: Fn(Symbol) -> bool,
    F: Fn(&mut Reader<'_>) -> Result<T, ReadRefusal>,
    requires goes { G.IsAlwaysCallable goes }
    requires item { F.IsAlwaysCallable item }
    ensures { GivesWhile (G.post goes) (F.post item) (λ q p. many q p (suc (length reader.old)) found reader.old) result reader.new }
{
    for _turn in 0..reader.turns() {
        if !goes(reader.ahead()) {
            return Ok(found);
        }
        found.push(item(reader)?)?;
    }
    Ok(found)
}

/// These, and what follows them, each after a comma.
pub fn more_listed<T: Drop, F: Fn(&mut Reader<'_>) -> Result<T, ReadRefusal>>(
    reader: &mut Reader<'_>,
    mut found: Items<T>,
    item: F,
) -> Result<Items<T>, ReadRefusal>
    requires { F.IsAlwaysCallable item }
    ensures { GivesBy (F.post item) (λ p. more_listed p found reader.old) result reader.new }
{
    for _turn in 0..reader.turns() {
        if !reader.pass_if(Symbol::Comma) {
            return Ok(found);
        }
        found.push(item(reader)?)?;
    }
    Ok(found)
}

/// One or more, separated by commas.
pub fn listed<T: Drop, F: Fn(&mut Reader<'_>) -> Result<T, ReadRefusal>>(
    alloc: Global,
    reader: &mut Reader<'_>,
    item: F,
) -> Result<Items<T>, ReadRefusal>
    requires { F.IsAlwaysCallable item }
    ensures { GivesBy (F.post item) (λ p. listed_at p reader.old) result reader.new }
{
    let mut found = Items::new(alloc);
    found.push(item(reader)?)?;
    more_listed(reader, found, item)
}

/// One or more, separated by commas, and the `}` that follows them. A comma may stand before it.
pub fn braced<T: Drop, F: Fn(&mut Reader<'_>) -> Result<T, ReadRefusal>>(
    alloc: Global,
    reader: &mut Reader<'_>,
    item: F,
) -> Result<Items<T>, ReadRefusal>
    requires { F.IsAlwaysCallable item }
    ensures { GivesBy (F.post item) (λ p. braced_at p reader.old) result reader.new }
{
    let mut found = Items::new(alloc);
    found.push(item(reader)?)?;
    let found = more_braced(reader, found, item)?;
    reader.take(Symbol::CloseBrace)?;
    Ok(found)
}

/// These, and what follows them, each after a comma. One more comma may stand before a `}`.
fn more_braced<T: Drop, F: Fn(&mut Reader<'_>) -> Result<T, ReadRefusal>>(
    reader: &mut Reader<'_>,
    mut found: Items<T>,
    item: F,
) -> Result<Items<T>, ReadRefusal>
    requires { F.IsAlwaysCallable item }
    ensures { GivesBy (F.post item) (λ p. more_braced (length reader.old) p found reader.old) result reader.new }
{
    for _turn in 0..reader.left() {
        if !reader.pass_if(Symbol::Comma) || reader.ahead().is(Symbol::CloseBrace) {
            return Ok(found);
        }
        found.push(item(reader)?)?;
    }
    Ok(found)
}
