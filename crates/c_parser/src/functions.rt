// Reads functions and their parameters (C90, 6.5.4.3 and 6.7.1).

ghost use Rattle.right_reading.specs.ReadDeclarations.{objects_at};
ghost use Rattle.right_reading.specs.ReadSource.{function_at, params_at, listed_params_at, param_at, maybe_name_at, param_dimension_at};
ghost use Rattle.right_reading.specs.ReadStatements.{block_with};
ghost use Rattle.token_reader.specs.Gives.{Gives};

use c_grammar::{ReadRefusal, Symbol};
use c_tree::{Dim, Function, Param};
use declaration_parser::dimension;
use expression_parser::type_;
use right_reading::Qualifiers;
use sat_base::{Named, Width};
use sqlite_items::Items;
use statement_parser::block;
use std::alloc::Global;
use token_reader::{Reader, listed};

/// What stands before the parameters of a function.
#[derive(Drop)]
pub(crate) struct FunctionHead {
    pub(crate) quals: Qualifiers,
    /// The width of what it gives, unless that is nothing.
    pub(crate) gives: Option<Width>,
    pub(crate) name: Named,
}

/// The function that begins so, from its parameters on. Its body has at most this height.
#[tactic(auto, unfolding(right_reading::specs::ReadSource::function_at, right_reading::specs::ReadSource::body_at))]
pub(crate) fn function(
    alloc: Global,
    reader: &mut Reader<'_>,
    head: FunctionHead,
    limit: u32,
) -> Result<Function, ReadRefusal>
    ensures { Gives (function_at (block_with objects_at limit) limit head.quals head.gives head.name reader.old) result reader.new }
{
    reader.take(Symbol::OpenParen)?;
    let params = params(alloc, reader, limit)?;
    reader.take(Symbol::CloseParen)?;
    let body = if reader.pass_if(Symbol::Semicolon) {
        None
    } else {
        Some(block(alloc, reader, limit)?)
    };
    Ok(Function {
        at: head.quals.at,
        name: head.name,
        gives: head.gives,
        params,
        body,
        is_static: head.quals.is_static,
    })
}

/// What stands in the brackets of a function: nothing, `void`, or parameters.
#[tactic(auto, unfolding(right_reading::specs::ReadSource::params_at))]
fn params(alloc: Global, reader: &mut Reader<'_>, limit: u32) -> Result<Items<Param>, ReadRefusal>
    ensures { Gives (params_at limit reader.old) result reader.new }
{
    if reader.ahead().is(Symbol::CloseParen) || reader.pass_if(Symbol::Void) {
        return Ok(Items::new(alloc));
    }
    listed_params(alloc, reader, limit)
}

/// One parameter or more, separated by commas.
#[tactic(auto, unfolding(right_reading::specs::ReadSource::listed_params_at))]
fn listed_params(
    alloc: Global,
    reader: &mut Reader<'_>,
    limit: u32,
) -> Result<Items<Param>, ReadRefusal>
    ensures { Gives (listed_params_at limit reader.old) result reader.new }
{
    listed(alloc, reader, |reader| param(alloc, reader, limit))
}

/// A parameter. It has a `*` or square brackets or neither, and needs no name.
#[tactic(auto, unfolding(right_reading::specs::ReadSource::param_at))]
fn param(alloc: Global, reader: &mut Reader<'_>, limit: u32) -> Result<Param, ReadRefusal>
    ensures { Gives (param_at limit reader.old) result reader.new }
{
    let at = reader.here();
    let is_const = reader.pass_if(Symbol::Const);
    let (type_at, width) = type_(reader)?;
    let pointer = reader.pass_if(Symbol::Star);
    let name = maybe_name(alloc, reader)?;
    let dim = param_dimension(alloc, reader, pointer, limit)?;
    Ok(Param {
        at,
        type_at,
        name,
        width,
        is_const,
        pointer,
        dim,
    })
}

/// The name of a parameter, where it has one.
fn maybe_name(alloc: Global, reader: &mut Reader<'_>) -> Result<Option<Named>, ReadRefusal>
    ensures { Gives (maybe_name_at reader.old) result reader.new }
{
    if !reader.ahead().is(Symbol::Name) {
        return Ok(None);
    }
    Ok(Some(reader.name(alloc)?))
}

/// The square brackets of a parameter, where it has some, and no `*`.
#[tactic(auto, unfolding(right_reading::specs::ReadSource::param_dimension_at))]
fn param_dimension(
    alloc: Global,
    reader: &mut Reader<'_>,
    pointer: bool,
    limit: u32,
) -> Result<Option<Dim>, ReadRefusal>
    ensures { Gives (param_dimension_at limit pointer reader.old) result reader.new }
{
    if pointer || !reader.ahead().is(Symbol::OpenBracket) {
        return Ok(None);
    }
    Ok(Some(dimension(alloc, reader, limit)?))
}
