// The table of commands, read with clap.

ghost use Rattle.std.specs.Prelude.{◌≡◌, IfOk, IfSome, IfNone, All, map, string_bytes};
ghost use Rattle.clap.specs.Words.{app_of, shape_of};
ghost use Rattle.command_words.specs.Command.{IsName, IsNoCommand};
ghost use Rattle.command_words.specs.Table.{IsLocal, IsRow, row_shape, table};

use clap::error::ErrorKind;
use clap::{Arg, ArgAction, ArgMatches, Command};
use sat_base::Memory;
use std::alloc::{AllocError, Global};

/// The name under which clap keeps the words after a verb.
pub const WORDS: &str = "words";

/// What clap makes of the words, if they are a row of the table.
pub fn row_in<'a>(alloc: Global, words: &'a [String]) -> Result<Option<ArgMatches<'a>>, Memory>
    requires { All IsName (map string_bytes words.now) }
    ensures found { IfOk result (λ row. IfSome row (IsRow (map string_bytes words.now))) }
    ensures none { IfOk result (λ row. IfNone row (IsNoCommand (map string_bytes words.now))) }
{
    let table = table(alloc)?;
    match table.try_get_matches_from(words) {
        Ok(matches) => Ok(Some(matches)),
        Err(error) => match error.kind() {
            ErrorKind::OutOfMemory => Err(Memory),
            _ => Ok(None),
        },
    }
}

// The table: each verb, and how many words come after it.
fn table<'a>(alloc: Global) -> Result<Command<'a>, AllocError>
    ensures { IfOk result (λ made. app_of made ≡ table) }
{
    Command::new(alloc, "satc")
        .no_binary_name(true)
        .disable_help_flag(true)
        .disable_help_subcommand(true)
        .subcommand_required(true)
        .subcommand(row(alloc, "build", 2)?)?
        .subcommand(row(alloc, "run-image", 4)?)?
        .subcommand(row(alloc, "run-source", 4)?)
}

// A row of the table.
fn row<'a>(alloc: Global, verb: &'a str, count: usize) -> Result<Command<'a>, AllocError>
    ensures shape { IfOk result (λ made. shape_of made ≡ row_shape (verb.now, count)) }
    ensures local { IfOk result IsLocal }
{
    let words = Arg::new(alloc, WORDS)
        .action(ArgAction::Set)
        .num_args(count)
        .required(true);
    Command::new(alloc, verb).arg(words)
}
