// The words of sites, and their registers.

ghost use Rattle.std.specs.Prelude.{◌≡◌, ◌<◌, ◌≤◌, nat_lt, [], ◌∷◌, map, OnOk};
ghost use Rattle.rv_encode.specs.Words.{encoded};
ghost use Rattle.operator_meaning.specs.declared.site.Guard.TheVariants.{Kept};
ghost use Rattle.operator_lowering.specs.Registers.{AreRegistersOf, places_of};
ghost use Rattle.operator_lowering.specs.Sites.{operand_count};
ghost use Rattle.operator_lowering.specs.Template.{ArePlaces};
ghost use Rattle.operator_lowering.specs.Words.{template_words};
ghost use Rattle.code_stacks.specs.Places.{in_registers, scratch_register, stack_register};
ghost use Rattle.code_stacks.specs.Operands.{operand_register};
ghost use Rattle.expression_code.specs.Code.{form_of, site_registers};
ghost use Rattle.code_pieces.specs.declared.piece.Piece.TheVariants.{Template};
ghost use Rattle.code_pieces.specs.Pieces.{Appends, AreSiteRegisters, AreUsed, words_of};

use crate::code::Code;
use crate::piece::{Entry, Piece};
use operator_lowering::{Regs, Words, regs, template};
use operator_meaning::{Form, Guard, SiteKind, arity};
use sat_base::Memory;
use std::alloc::Global;
use template_runs::Registers;

/// How many operands a site has.
pub fn operand_count(kind: SiteKind) -> u32
    ensures { result ≡ operand_count kind }
{
    match kind {
        SiteKind::Call(op) => arity(op),
        SiteKind::Sum | SiteKind::Difference | SiteKind::Product => 2,
        SiteKind::Opposite | SiteKind::Bound(_) => 1,
        SiteKind::ViewBound | SiteKind::ViewEdge => 3,
        SiteKind::Sample => 0,
    }
}

/// The form in which a site is compiled: an operator sets Overflow, and the other kinds have no clip.
pub fn form_of(kind: SiteKind) -> Form
    ensures { result ≡ form_of kind }
{
    match kind {
        SiteKind::Call(_) => Form::Flag,
        _ => Form::Plain,
    }
}

/// The register of a value by its place on the stack, or the one in which it is computed before it goes to its word.
pub fn stack_register(place: u32) -> u8
    ensures { result ≡ stack_register place }
{
    match place {
        0 => 8,
        1 => 9,
        2 => 11,
        3 => 12,
        4 => 13,
        _ => 14,
    }
}

/// The register into which an operand comes that has a word.
pub fn scratch_register(operand: u32) -> u8
    ensures { result ≡ scratch_register operand }
{
    match operand {
        0 => 14,
        1 => 15,
        _ => 16,
    }
}

/// Whether a value has a register, by its place on the stack.
pub fn has_register(place: u64) -> bool
    ensures { result ≡ nat_lt place in_registers }
{
    place < 5
}

/// The register in which an operand is found.
pub fn operand_register(depth: u32, operand: u32) -> u8
    ensures { result ≡ operand_register depth operand }
{
    let place = u64::from(depth) + u64::from(operand);
    if has_register(place) {
        stack_register(place as u32)
    } else {
        scratch_register(operand)
    }
}

/// The registers of a site with so many operands on top of a stack of this depth.
pub fn site_registers(depth: u32, count: u32) -> Registers
    ensures registers { result ≡ site_registers depth count }
    ensures places { ArePlaces result }
    ensures used { AreUsed count result }
{
    let result = stack_register(depth);
    Registers {
        result,
        first: operand_or(depth, count, 0),
        second: operand_or(depth, count, 1),
        third: operand_or(depth, count, 2),
    }
}

// The register of an operand, or that of the result where the site has none at its place.
fn operand_or(depth: u32, count: u32, operand: u32) -> u8
    ensures has { operand < count → result ≡ operand_register depth operand }
    ensures lacks { count ≤ operand → result ≡ stack_register depth }
{
    if operand < count {
        operand_register(depth, operand)
    } else {
        stack_register(depth)
    }
}

// The registers of a site as `template` takes them.
fn regs_of(alloc: Global, kind: SiteKind, at: Registers) -> Regs
    requires { AreSiteRegisters kind at }
    ensures registers { AreRegistersOf kind result }
    ensures places { places_of result ≡ at }
{
    match operand_count(kind) {
        0 => regs(alloc, at.result, &[]),
        1 => regs(alloc, at.result, &[at.first]),
        2 => regs(alloc, at.result, &[at.first, at.second]),
        _ => regs(alloc, at.result, &[at.first, at.second, at.third]),
    }
}

/// The words of a site over its registers, encoded.
pub fn lowered(alloc: Global, entry: Entry, at: Registers) -> Words
    requires { AreSiteRegisters entry.kind at }
    ensures { result ≡ map encoded (template_words entry.kind (form_of entry.kind) Kept entry.site at) }
{
    let kind = entry.kind;
    let registers = regs_of(alloc, kind, at);
    template(kind, form_of(kind), Guard::Kept, entry.site, &registers)
}

impl Code {
    /// Appends the words of a site over its registers.
    pub fn push_site(&mut self, alloc: Global, entry: Entry, at: Registers) -> Result<(), Memory>
        requires { AreSiteRegisters entry.kind at }
        ensures { OnOk result (Appends self.old self.new (words_of (Template entry at)) (entry ∷ [])) }
    {
        let words = lowered(alloc, entry, at).as_slice().len() as u32;
        self.push(Piece::Template { entry, regs: at }, words)
    }
}
