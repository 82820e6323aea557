// Reads assignments, steps and calls.

ghost use Rattle.right_reading.specs.ReadStatements.{assignment_at, named_simple_at, set_overflow_at, step_before_at, simple_at, simples_at};
ghost use Rattle.token_reader.specs.Gives.{Gives};

use c_grammar::{ReadRefusal, Symbol, assign_mark, step_of};
use c_tree::{Call, Place, Simple};
use expression_parser::{arguments, expression, indices, indirection, place};
use sqlite_items::Items;
use std::alloc::Global;
use token_reader::{Reader, listed};

/// An assignment, a step or a call, whose parts have at most this height.
#[tactic(auto, unfolding(right_reading::specs::ReadStatements::simple_at, right_reading::specs::ReadStatements::indirect_simple_at))]
pub(crate) fn simple(
    alloc: Global,
    reader: &mut Reader<'_>,
    limit: u32,
) -> Result<Simple, ReadRefusal>
    ensures { Gives (simple_at limit reader.old) result reader.new }
{
    match reader.ahead() {
        Symbol::Name => named_simple(alloc, reader, limit),
        Symbol::Star => {
            let place = indirection(alloc, reader, limit)?;
            assignment(alloc, reader, place.tree, limit)
        }
        Symbol::Overflow => set_overflow(alloc, reader, limit),
        _ => step_before(alloc, reader, limit),
    }
}

/// What begins with a name: a call, or an assignment or a step of a place.
#[tactic(auto, unfolding(right_reading::specs::ReadStatements::named_simple_at, right_reading::specs::ReadStatements::named_simple_by))]
fn named_simple(alloc: Global, reader: &mut Reader<'_>, limit: u32) -> Result<Simple, ReadRefusal>
    ensures { Gives (named_simple_at limit reader.old) result reader.new }
{
    let name = reader.name(alloc)?;
    if reader.ahead().is(Symbol::OpenParen) {
        let args = arguments(alloc, reader, limit)?;
        return Ok(Simple::Call(Call {
            name,
            args: args.tree,
        }));
    }
    let place = indices(alloc, reader, name, limit)?;
    match step_of(reader.ahead()) {
        Some(up) => {
            let mark_at = reader.pass();
            Ok(Simple::step_after(alloc, place.tree, up, mark_at)?)
        }
        None => assignment(alloc, reader, place.tree, limit),
    }
}

/// The assignment to this place, which is read already (C90, 6.3.16).
#[tactic(auto, unfolding(right_reading::specs::ReadStatements::assignment_at))]
fn assignment(
    alloc: Global,
    reader: &mut Reader<'_>,
    place: Place,
    limit: u32,
) -> Result<Simple, ReadRefusal>
    ensures { Gives (assignment_at limit place reader.old) result reader.new }
{
    let Some(mark) = assign_mark(reader.ahead()) else {
        return Err(reader.syntax());
    };
    let mark_at = reader.pass();
    let value = expression(alloc, reader, limit)?;
    Ok(Simple::assign(alloc, place, mark, mark_at, value.tree)?)
}

/// The assignment to `Overflow`, which has to be ahead.
#[tactic(auto, unfolding(right_reading::specs::ReadStatements::set_overflow_at))]
fn set_overflow(alloc: Global, reader: &mut Reader<'_>, limit: u32) -> Result<Simple, ReadRefusal>
    ensures { Gives (set_overflow_at limit reader.old) result reader.new }
{
    let at = reader.take(Symbol::Overflow)?;
    reader.take(Symbol::Equal)?;
    let value = expression(alloc, reader, limit)?;
    Ok(Simple::set_overflow(alloc, at, value.tree)?)
}

/// A step whose mark has to be ahead (C90, 6.3.3.1).
#[tactic(auto, unfolding(right_reading::specs::ReadStatements::step_before_at))]
fn step_before(alloc: Global, reader: &mut Reader<'_>, limit: u32) -> Result<Simple, ReadRefusal>
    ensures { Gives (step_before_at limit reader.old) result reader.new }
{
    let Some(up) = step_of(reader.ahead()) else {
        return Err(reader.syntax());
    };
    let mark_at = reader.pass();
    let place = place(alloc, reader, limit)?;
    Ok(Simple::step_before(alloc, up, mark_at, place.tree)?)
}

/// One assignment, step or call or more, separated by commas.
#[tactic(auto, unfolding(right_reading::specs::ReadStatements::simples_at))]
pub(crate) fn simples(
    alloc: Global,
    reader: &mut Reader<'_>,
    limit: u32,
) -> Result<Items<Simple>, ReadRefusal>
    ensures { Gives (simples_at limit reader.old) result reader.new }
{
    listed(alloc, reader, |reader| simple(alloc, reader, limit))
}
