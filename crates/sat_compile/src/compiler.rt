// From the text of a source to its image.

ghost use Rattle.std.specs.Prelude.{IfOk, IfErr};
ghost use Rattle.sat_compile.specs.Accepted.{IsImageOf};
ghost use Rattle.sat_compile.specs.Causes.{IsCause};

use crate::checking::checked;
use crate::emit::image_of;
use crate::refusal::CompileRefusal;
use c_lexer::tokens;
use c_reader::read;
use first_form::first_of;
use image_format::Image;
use sat_base::limits::SOURCE_BYTES;
use std::alloc::Global;

/// What is made of a source.
#[derive(Debug, Drop)]
pub struct Built {
    pub image: Image,
}

/// Compiles a text: an image of its source exactly where the text is accepted. Otherwise the refusal has its
/// cause, and the causes are looked at in this order: length, lexical rules, syntax and depth, faults and
/// limits, recursion, form.
pub fn compile(alloc: Global, text: &[u8]) -> Result<Built, CompileRefusal>
    ensures built { IfOk result (λ built. IsImageOf text.now built.image) }
    ensures refused { IfErr result (IsCause text.now) }
{
    if text.len() > SOURCE_BYTES {
        return Err(CompileRefusal::TooLong);
    }
    let tokens = tokens(alloc, text)?;
    let program = read(alloc, &tokens)?;
    let _source = checked(alloc, &program)?;
    let Some(first) = first_of(alloc, &program)? else {
        return Err(CompileRefusal::NotYet);
    };
    let image = image_of(alloc, &first)?;
    Ok(Built { image })
}
