// From the text of a source to its tied names.

ghost use Rattle.std.specs.Prelude.{IfOk, IfErr};
ghost use Rattle.sat_compile.specs.Accepted.{IsSource};
ghost use Rattle.sat_compile.specs.Causes.{IsNoSource};

use crate::checking::{Front, checked};
use crate::refusal::CompileRefusal;
use c_lexer::tokens;
use c_reader::read;
use sat_base::limits::SOURCE_BYTES;
use std::alloc::Global;

/// The source of a text, exactly where there is one. Otherwise the refusal has its cause, and the causes are looked at in
/// this order: length, lexical rules, syntax and depth, faults and limits, recursion.
pub fn front(alloc: Global, text: &[u8]) -> Result<Front, CompileRefusal>
    ensures front { IfOk result (λ front. IsSource text.now front.typed front.order.functions) }
    ensures refused { IfErr result (IsNoSource text.now) }
{
    if text.len() > SOURCE_BYTES {
        return Err(CompileRefusal::TooLong);
    }
    let tokens = tokens(alloc, text)?;
    let program = read(alloc, &tokens)?;
    checked(alloc, &program)
}
