// What a run comes to.

ghost use Rattle.std.specs.Prelude.{◌≡◌, ◌++◌, string_bytes, IfOk};
ghost use Rattle.std.specs.List.{flat_map};
ghost use Rattle.command_outcomes.specs.Lines.{sites_line, missing_line, cannot_read_line, cannot_write_line};
ghost use Rattle.sat_compile.specs.Telling.{refusal_line, spaced};

use sat_base::{Memory, Name};
use sat_compile::CompileRefusal;
use sqlite_items::Items;
use std::alloc::{AllocError, Global};

/// The bytes of a text that is put, its line feeds included.
pub type Text = Items<u8>;

/// What a run comes to before its text is put. What a variant holds is that text.
#[derive(Debug, Drop)]
pub enum Outcome {
    /// The job was done. Not every job has a report.
    Done(Option<Text>),
    /// The source is not accepted.
    Refused(Text),
    /// The words are no command.
    NoCommand,
    /// Want of memory.
    NoMemory,
    /// A file could not be used.
    Unusable(Text),
    /// The run stopped at a site.
    Stopped(Text),
    /// The run goes on at its number.
    Going,
    /// A file is not what the command asks for.
    Unfit(Text),
    /// The machine faulted.
    Faulted(Text),
}

impl Outcome {
    ghost use Rattle.std.specs.Prelude.{MatchOption, Some, None};
    ghost use Rattle.command_outcomes.specs.Statuses.{status_of, text_of};

    /// The exit status.
    pub fn status(&self) -> u8
        ensures { result ≡ status_of self.now }
    {
        match self {
            Outcome::Done(_) => 0,
            Outcome::Refused(_) => 1,
            Outcome::NoCommand => 2,
            Outcome::NoMemory => 3,
            Outcome::Unusable(_) => 4,
            Outcome::Stopped(_) => 5,
            Outcome::Going => 6,
            Outcome::Unfit(_) => 7,
            Outcome::Faulted(_) => 8,
        }
    }

    /// The text that is put, or none where nothing is.
    pub fn text(&self) -> Option<&[u8]>
        ensures { MatchOption result (text_of self.now ≡ None) (λ text. text_of self.now ≡ Some text.now) }
    {
        match self {
            Outcome::Done(None) => None,
            Outcome::Done(Some(text))
            | Outcome::Refused(text)
            | Outcome::Unusable(text)
            | Outcome::Stopped(text)
            | Outcome::Unfit(text)
            | Outcome::Faulted(text) => Some(text.as_slice()),
            Outcome::NoCommand => Some(b"usage: satc build SRC IMG\n"),
            Outcome::NoMemory => Some(b"out of memory\n"),
            Outcome::Going => Some(b"going\n"),
        }
    }
}

impl From<Memory> for Outcome {
    ghost use Rattle.command_outcomes.specs.declared.outcome.Outcome.TheVariants as outcomes;

    ghost from_gives = { λ _ outcome. outcome ≡ outcomes.NoMemory };

    fn from(_error: Memory) -> Outcome {
        Outcome::NoMemory
    }
}

impl From<AllocError> for Outcome {
    ghost use Rattle.command_outcomes.specs.declared.outcome.Outcome.TheVariants as outcomes;

    ghost from_gives = { λ _ outcome. outcome ≡ outcomes.NoMemory };

    fn from(_error: AllocError) -> Outcome {
        Outcome::NoMemory
    }
}

/// The report of a source with so many sites.
pub fn sites(alloc: Global, count: usize) -> Result<Outcome, AllocError>
    ensures { IfOk result (λ outcome. outcome ≡ Outcome.Done (Some (sites_line count))) }
{
    let line = format!(in alloc; "sites {count}\n")?;
    Ok(Outcome::Done(Some(text(line))))
}

/// The store has no file of this name.
pub fn missing(alloc: Global, name: &str) -> Result<Outcome, AllocError>
    ensures { IfOk result (λ outcome. outcome ≡ Outcome.Unusable (missing_line name.now)) }
{
    let line = format!(in alloc; "missing {name}\n")?;
    Ok(Outcome::Unusable(text(line)))
}

/// The store failed to read this file.
pub fn cannot_read(alloc: Global, name: &str) -> Result<Outcome, AllocError>
    ensures { IfOk result (λ outcome. outcome ≡ Outcome.Unusable (cannot_read_line name.now)) }
{
    let line = format!(in alloc; "cannot read {name}\n")?;
    Ok(Outcome::Unusable(text(line)))
}

/// The store failed to write this file.
pub fn cannot_write(alloc: Global, name: &str) -> Result<Outcome, AllocError>
    ensures { IfOk result (λ outcome. outcome ≡ Outcome.Unusable (cannot_write_line name.now)) }
{
    let line = format!(in alloc; "cannot write {name}\n")?;
    Ok(Outcome::Unusable(text(line)))
}

/// The line that tells of a text where and why it is refused.
pub fn refusal_line(alloc: Global, refusal: &CompileRefusal) -> Result<Text, AllocError>
    ensures { IfOk result (λ text. text ≡ refusal_line refusal.now) }
{
    let at = refusal.place();
    let words = refusal.words();
    let told = format!(in alloc; "error {}:{} {words}", at.line, at.col)?;
    let mut line = with_names(told.into_bytes(), refusal.names())?;
    line.push(b'\n')?;
    Ok(Items::from_vec(line))
}

// The text, with each of the names behind it, after a space.
fn with_names(told: Vec<u8>, names: &[Name]) -> Result<Vec<u8>, AllocError>
    ensures { IfOk result (λ line. line.items ≡ told.items ++ flat_map spaced names.now) }
{
    let mut line = told;
    for name in names {
        line.push(b' ')?;
        line.extend_from_slice(name.as_bytes())?;
    }
    Ok(line)
}

/// The text of a line.
pub fn text(line: String) -> Text
    ensures { result ≡ string_bytes line }
{
    Items::from_vec(line.into_bytes())
}
