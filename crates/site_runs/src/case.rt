// What a line asks for.

ghost use Rattle.std.specs.Prelude.{All, IfSome};
ghost use Rattle.template_runs.specs.Renaming.{IsPlace};

use crate::run::ran;
use crate::spelled::{form_of, guard_of, kind_of, regs_of};
use crate::value::value_of;
use operator_lowering::{Regs, Words, template};
use std::alloc::{AllocError, Global};

/// A site with its words.
#[derive(Drop)]
struct Site {
    regs: Regs,
    words: Words,
}

/// The answer to a line `value OPERATOR NUMBERS`, or `KIND FORM GUARD NUMBER; REGISTERS; NUMBERS; OVERFLOW; SAMPLES`: the
/// registers of the result and of the operands, the numbers that the operands have, Overflow before, and the samples that
/// are left.
pub fn answer_to(alloc: Global, line: &str) -> Result<String, AllocError> {
    if let Some(("value", text)) = line.split_once(' ') {
        return value_of(alloc, text);
    }
    let mut parts = line.split(';');
    let spelled = parts.next().unwrap_or("");
    let registers = parts.next().unwrap_or("");
    match site_of(alloc, spelled, registers) {
        Some(site) => ran(alloc, &site.regs, site.words.as_slice(), parts),
        None => format!(in alloc; "no site: {line}"),
    }
}

fn site_of(alloc: Global, spelled: &str, registers: &str) -> Option<Site>
    ensures { IfSome result (λ site. IsPlace site.regs.dest × All IsPlace site.regs.operands.items) }
{
    let mut words = spelled.split_whitespace();
    let kind = kind_of(words.next()?)?;
    let form = form_of(kind, words.next()?)?;
    let guard = guard_of(words.next()?)?;
    let number = words.next()?.parse().ok()?;
    let regs = regs_of(alloc, kind, registers)?;
    let words = template(kind, form, guard, number, &regs);
    Some(Site { regs, words })
}
