// The words of the command line.

ghost use Rattle.std.specs.Prelude.{◌≡◌, ◌↔◌, ◌∷◌, [], map, string_bytes, IsTrue, IfOk, IfSome, IfNone, All, List, ℕ};
ghost use Rattle.command_words.specs.Command.{IsName, IsCommand, IsNoCommand};
ghost use Rattle.command_words.specs.Table.{IsRow};
ghost use Rattle.command_words.specs.Words.{asked_by, run_words};

use crate::numbers::{step_count, turn_count};
use crate::table::{WORDS, row_in};
use clap::ArgMatches;
use sat_base::Memory;
use std::alloc::Global;

/// What is asked for, with the names of the files.
#[derive(Clone, Copy, Debug)]
pub enum Command<'a> {
    /// Compile the source, and write its image.
    Build { source: &'a str, image: &'a str },
    /// Run the image for at most so many instructions.
    RunImage { files: RunFiles<'a>, steps: u64 },
    /// Run the source, where each activation of a loop may begin so many turns.
    RunSource { files: RunFiles<'a>, turns: u32 },
}

/// The files of a run: what is run, its input, and what it writes.
#[derive(Clone, Copy, Debug)]
pub struct RunFiles<'a> {
    pub program: &'a str,
    pub input: &'a str,
    pub output: &'a str,
}

/// What the words after the program's name ask for; none exactly where they ask for nothing that
/// there is.
pub fn command_of<'a>(alloc: Global, words: &'a [String]) -> Result<Option<Command<'a>>, Memory>
    ensures found { IfOk result (λ asked. IfSome asked (λ command.
        IsCommand (map string_bytes words.now) (asked_by command))) }
    ensures none { IfOk result (λ asked. IfNone asked (IsNoCommand (map string_bytes words.now))) }
{
    if !are_names(words) {
        return Ok(None);
    }
    match row_in(alloc, words)? {
        Some(row) => Ok(asked_in(&row)),
        None => Ok(None),
    }
}

// No word is empty or begins with `-`, so that clap meets no flag.
fn are_names(words: &[String]) -> bool
    ensures { IsTrue result ↔ All (λ word. IsName (string_bytes word)) words.now }
{
    words.iter().all(|word| is_name(word.as_str()))
}

// A name is not empty and does not begin with `-`.
fn is_name(word: &str) -> bool
    ensures { IsTrue result ↔ IsName word.now }
{
    match word.as_bytes().first() {
        Some(first) => *first != b'-',
        None => false,
    }
}

// What the row asks for that clap read in these words.
fn asked_in<'a>(row: &ArgMatches<'a>) -> Option<Command<'a>>
    ensures found { (words : List (List ℕ)) → IsRow words row.now
        → IfSome result (λ command. IsCommand words (asked_by command)) }
    ensures none { (words : List (List ℕ)) → IsRow words row.now
        → IfNone result (IsNoCommand words) }
{
    let (verb, rest) = row.subcommand()?;
    asked(verb, rest.get_strs(WORDS)?)
}

// What a verb asks for, with the words after it.
fn asked<'a>(verb: &'a str, rest: &[&'a str]) -> Option<Command<'a>>
    ensures found { IfSome result (λ command. All IsName (map (λ word. word.now) rest.now)
        → IsCommand (verb.now ∷ map (λ word. word.now) rest.now) (asked_by command)) }
    ensures none { IfNone result (IsNoCommand (verb.now ∷ map (λ word. word.now) rest.now)) }
{
    match rest {
        [source, image] => build_asked(verb, source, image),
        [program, input, output, count] => {
            let files = RunFiles {
                program,
                input,
                output,
            };
            run_asked(verb, files, count)
        }
        _ => None,
    }
}

// What a verb asks for, with two words after it.
fn build_asked<'a>(verb: &'a str, source: &'a str, image: &'a str) -> Option<Command<'a>>
    ensures found { IfSome result (λ command. All IsName (source.now ∷ image.now ∷ [])
        → IsCommand (verb.now ∷ source.now ∷ image.now ∷ []) (asked_by command)) }
    ensures none { IfNone result (IsNoCommand (verb.now ∷ source.now ∷ image.now ∷ [])) }
{
    if verb == "build" {
        Some(Command::Build { source, image })
    } else {
        None
    }
}

// What a verb asks for, with four words after it.
fn run_asked<'a>(verb: &'a str, files: RunFiles<'a>, count: &'a str) -> Option<Command<'a>>
    ensures found { IfSome result (λ command. All IsName (run_words files.entry count.now)
        → IsCommand (verb.now ∷ run_words files.entry count.now) (asked_by command)) }
    ensures none { IfNone result (IsNoCommand (verb.now ∷ run_words files.entry count.now)) }
{
    match verb {
        "run-image" => {
            let steps = step_count(count)?;
            Some(Command::RunImage { files, steps })
        }
        "run-source" => {
            let turns = turn_count(count)?;
            Some(Command::RunSource { files, turns })
        }
        _ => None,
    }
}
