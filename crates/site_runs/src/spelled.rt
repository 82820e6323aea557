// Sites as lines spell them.

ghost use Rattle.std.specs.Prelude.{◌≡◌, IfSome};
ghost use Rattle.template_runs.specs.Renaming.{IsPlace};
ghost use Rattle.operator_lowering.specs.Laws.{IsFormOf};
ghost use Rattle.operator_lowering.specs.Registers.{AreRegistersOf};
ghost use Rattle.operator_lowering.specs.Sites.{operand_count};

use operator_lowering::{Regs, regs};
use operator_meaning::{Form, Guard, SiteKind, arity, of_name};
use std::alloc::Global;
use std::str::SplitWhitespace;

/// The kind of a site: an operator by its name, `bound=N`, or another kind by its own.
pub fn kind_of(text: &str) -> Option<SiteKind> {
    match text {
        "sum" => Some(SiteKind::Sum),
        "difference" => Some(SiteKind::Difference),
        "product" => Some(SiteKind::Product),
        "opposite" => Some(SiteKind::Opposite),
        "view" => Some(SiteKind::ViewBound),
        "edge" => Some(SiteKind::ViewEdge),
        "sample" => Some(SiteKind::Sample),
        _ => match text.split_once('=') {
            Some(("bound", bound)) => Some(SiteKind::Bound(bound.parse().ok()?)),
            _ => Some(SiteKind::Call(of_name(text)?)),
        },
    }
}

/// The form of a site, if the kind has it.
pub fn form_of(kind: SiteKind, text: &str) -> Option<Form>
    ensures { IfSome result (λ form. IsFormOf kind form) }
{
    match (kind, text) {
        (_, "plain") => Some(Form::Plain),
        (SiteKind::Call(_), "clamp") => Some(Form::Clamp),
        (SiteKind::Call(_), "flag") => Some(Form::Flag),
        _ => None,
    }
}

/// Whether a site is checked.
pub fn guard_of(text: &str) -> Option<Guard> {
    match text {
        "kept" => Some(Guard::Kept),
        "gone" => Some(Guard::Gone),
        _ => None,
    }
}

// How many operands a site has.
fn operand_count(kind: SiteKind) -> u32
    ensures { result ≡ operand_count kind }
{
    match kind {
        SiteKind::Call(op) => arity(op),
        SiteKind::Sum | SiteKind::Difference | SiteKind::Product => 2,
        SiteKind::Opposite | SiteKind::Bound(_) => 1,
        SiteKind::ViewBound | SiteKind::ViewEdge => 3,
        SiteKind::Sample => 0,
    }
}

// The next register, from x8 to x23.
fn register_in(words: &mut SplitWhitespace<'_>) -> Option<u8>
    ensures { IfSome result (λ register. IsPlace register) }
{
    let number: u8 = words.next()?.parse().ok()?;
    if 8 <= number && number <= 23 {
        Some(number)
    } else {
        None
    }
}

/// The registers of a site: that of its result, and those of its operands.
pub fn regs_of(alloc: Global, kind: SiteKind, text: &str) -> Option<Regs>
    ensures { IfSome result (λ regs. AreRegistersOf kind regs) }
{
    let mut words = text.split_whitespace();
    let dest = register_in(&mut words)?;
    match operand_count(kind) {
        0 => Some(regs(alloc, dest, &[])),
        1 => {
            let first = register_in(&mut words)?;
            Some(regs(alloc, dest, &[first]))
        }
        2 => {
            let first = register_in(&mut words)?;
            let second = register_in(&mut words)?;
            Some(regs(alloc, dest, &[first, second]))
        }
        3 => {
            let first = register_in(&mut words)?;
            let second = register_in(&mut words)?;
            let third = register_in(&mut words)?;
            Some(regs(alloc, dest, &[first, second, third]))
        }
        _ => None,
    }
}
