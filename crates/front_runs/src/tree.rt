// The trees of texts.

use c_lexer::tokens;
use c_reader::{ReadRefusal, read};
use c_tree::Program;
use sat_base::limits::SOURCE_BYTES;
use std::alloc::{AllocError, Global};

/// What is read of a text that has no lexical fault and is not too long.
pub fn read_text(alloc: Global, text: &[u8]) -> Option<Result<Program, ReadRefusal>> {
    if text.len() > SOURCE_BYTES {
        return None;
    }
    let found = tokens(alloc, text).ok()?;
    Some(read(alloc, &found))
}

/// How many items a text has, or why and where it is refused.
pub fn tree_of(alloc: Global, text: &[u8]) -> Result<String, AllocError> {
    let (kind, tok, pos) = match read_text(alloc, text) {
        None => return String::from_str(alloc, "no tokens"),
        Some(Ok(program)) => return format!(in alloc; "{}", program.items.len()),
        Some(Err(ReadRefusal::Syntax { tok, pos })) => ("syntax", tok, pos),
        Some(Err(ReadRefusal::TooDeep { tok, pos })) => ("too deep", tok, pos),
        Some(Err(ReadRefusal::Memory)) => return String::from_str(alloc, "memory"),
    };
    format!(in alloc; "{kind} {tok} {}:{}", pos.line, pos.col)
}
