// What the names are tied to at a place of a source.

ghost use Rattle.std.specs.Prelude.{◌≡◌, ◌-◌, OnOk, IfOk, length, drop};
ghost use Rattle.std.specs.Option.{option_copied};
ghost use Rattle.tied_names.specs.Ties.{here_of, tie_of, is_view, function_at, asked_by_parameter, asked_by_call, asked_of, declaring};
ghost use Rattle.tied_names.specs.Numbers.{number_in, is_exposed};

use crate::facts::Facts;
use crate::tie::{Asked, Tie};
use c_scopes::{Declared, Scopes};
use c_tree::{Function, Item, Param};
use c_typed::Callee;
use operator_meaning::Object;
use predefined_calls::{arity, callee_named, takes};
use sat_base::{Memory, Width};
use sqlite_items::Items;
use std::alloc::Global;

/// What is in scope at a place of a source, and the objects that are declared before it.
#[derive(Drop)]
pub struct Ties<'s, 'a> {
    pub alloc: Global,
    /// The items of the source.
    pub items: &'a [Item],
    pub facts: &'s Facts,
    pub names: Scopes<'a, Tie>,
    pub objects: Items<Object>,
}

impl<'s, 'a> Ties<'s, 'a> {
    /// What the name is tied to.
    pub fn find(&self, name: &[u8]) -> Option<Tie>
        ensures { result ≡ tie_of (here_of self.now) name.now }
    {
        match self.names.find(name) {
            Some(declared) => Some(declared.what),
            None => match callee_named(name) {
                Some(callee) => Some(Tie::Predefined(callee)),
                None => None,
            },
        }
    }

    /// The number of the site at the token.
    pub fn site_at(&self, tok: u32) -> Result<u32, Memory>
        ensures { IfOk result (λ number. number ≡ number_in (here_of self.now).tokens tok) }
    {
        self.facts.tokens.number_at(tok)
    }

    /// Whether the object of this number is exposed.
    pub fn is_exposed(&self, number: u32) -> bool
        ensures { result ≡ is_exposed (here_of self.now).exposed number }
    {
        self.facts.is_exposed(number)
    }

    /// What the parameter at the place, counted from 0, takes; a number of 32 bits where there is none.
    pub fn asked(&self, tie: Option<Tie>, place: usize) -> Asked
        ensures { result ≡ asked_of self.now.items.now tie place }
    {
        match tie {
            Some(Tie::Predefined(callee)) => asked_by_call(callee, place),
            Some(Tie::Function { item, .. }) => match function_at(self.items, item) {
                Some(function) => match function.params.get(place) {
                    Some(param) => asked_by(param),
                    None => Asked::Number(Width::W32),
                },
                None => Asked::Number(Width::W32),
            },
            _ => Asked::Number(Width::W32),
        }
    }

    /// Declares a name.
    pub fn declare(&mut self, name: &'a [u8], what: Tie) -> Result<(), Memory>
        ensures { OnOk result (here_of self.new ≡ declaring (here_of self.old) name.now what) }
    {
        self.names.declare(name, Declared { depth: 0, what })
    }

    /// Forgets all but the oldest of these many declarations, as a scope is left.
    pub fn leave(&mut self, len: usize)
        ensures { self.new ≡ record self.old { names = drop (length self.old.names - len) self.old.names } }
    {
        self.names.leave(len)
    }

    /// The number that the next object has.
    pub fn next_object(&self) -> Result<u32, Memory>
        ensures { IfOk result (λ number. number ≡ length (here_of self.now).objects) }
    {
        match u32::try_from(self.objects.len()) {
            Ok(number) => Ok(number),
            Err(_) => Err(Memory),
        }
    }
}

/// Whether the parameter is a view.
pub fn is_view(param: &Param) -> bool
    ensures { result ≡ is_view param.now }
{
    param.pointer || param.dim.is_some()
}

fn asked_by(param: &Param) -> Asked
    ensures { result ≡ asked_by_parameter param.now }
{
    if is_view(param) {
        Asked::View
    } else {
        Asked::Number(param.width)
    }
}

fn asked_by_call(callee: Callee, place: usize) -> Asked
    ensures { result ≡ asked_by_call callee place }
{
    if place < arity(callee) as usize {
        Asked::Number(takes(callee, place as u32))
    } else {
        Asked::Number(Width::W32)
    }
}

/// The function that the item declares.
fn function_at<'a>(items: &'a [Item], item: usize) -> Option<&'a Function>
    ensures { option_copied result ≡ function_at items.now item }
{
    match items.get(item) {
        Some(Item::Function(function)) => Some(function),
        _ => None,
    }
}
