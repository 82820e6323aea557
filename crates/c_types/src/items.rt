// Items whose names are tied: objects at file scope, and functions (C90, 6.7).

ghost use Rattle.std.specs.Prelude.{◌≡◌, IfOk, OnOk, length};
ghost use Rattle.tied_names.specs.Ties.{here_of};
ghost use Rattle.c_types.specs.Sources.{source_of, opening, function_number, number_of, with_function, declared, defined, defining, after_parameter, parameters_of, after_declaration, after_definition, after_function, after_item, after_items};

use c_scopes::Scopes;
use c_tree::{Block, Function, Item, Param};
use c_typed::{TypedBlock, TypedFunction};
use sat_base::{Memory, Name};
use sqlite_items::Items;
use std::alloc::Global;
use tied_names::{Facts, Note, Tie, Ties};
use tied_objects::parameter_object;
use tied_statements::{Inside, block, declare_object, objects};

/// What is known of a source after some of its items.
#[derive(Drop)]
pub struct Source<'s, 'a> {
    pub ties: Ties<'s, 'a>,
    pub functions: Items<TypedFunction>,
    pub notes: Vec<Note>,
}

/// The number of the function that a name is tied to, if it is tied to one.
fn function_number(tie: Option<Tie>) -> Option<u32>
    ensures { result ≡ function_number tie }
{
    match tie {
        Some(Tie::Function { number, .. }) => Some(number),
        _ => None,
    }
}

/// A function that is declared, and not defined yet.
fn declared(alloc: Global, function: &Function) -> Result<TypedFunction, Memory>
    ensures { IfOk result (λ whole. whole ≡ declared function.now) }
{
    Ok(TypedFunction {
        name: Name::from_slice(alloc, function.name.name.as_bytes())?,
        defined: None,
        gives: function.gives,
        params: Items::new(alloc),
        body: None,
    })
}

/// A function that is defined, with its parameters and its body.
fn defined(
    alloc: Global,
    function: &Function,
    params: Items<u32>,
    body: TypedBlock,
) -> Result<TypedFunction, Memory>
    ensures { IfOk result (λ whole. whole ≡ defined function.now params body) }
{
    Ok(TypedFunction {
        name: Name::from_slice(alloc, function.name.name.as_bytes())?,
        defined: Some(function.name.at),
        gives: function.gives,
        params,
        body: Some(body),
    })
}

/// Puts the defined function in the place of the declared one.
fn complete(functions: &mut Items<TypedFunction>, number: u32, whole: TypedFunction)
    ensures { functions.new ≡ defining functions.old number whole }
{
    if (number as usize) < functions.len() {
        functions.set(number as usize, whole);
    }
}

/// Declares a parameter of the function of this number, and answers the number of its object.
fn parameter<'a>(ties: &mut Ties<'_, 'a>, function: u32, param: &'a Param) -> Result<u32, Memory>
    ensures number { IfOk result (λ number. number ≡ length (here_of ties.old).objects) }
    ensures after { OnOk result (here_of ties.new ≡ after_parameter (here_of ties.old) function param.now) }
{
    let number = ties.next_object()?;
    let exposed = ties.is_exposed(number);
    let object = parameter_object(ties.alloc, param, function, exposed)?;
    match &param.name {
        Some(name) => declare_object(ties, name.name.as_bytes(), object),
        None => {
            ties.objects.push(object)?;
            Ok(number)
        },
    }
}

fn parameters<'a>(
    ties: &mut Ties<'_, 'a>,
    function: u32,
    params: &'a [Param],
) -> Result<Items<u32>, Memory>
    ensures numbers { IfOk result (λ numbers. numbers ≡ (parameters_of (here_of ties.old) function params.now).numbers) }
    ensures after { OnOk result (here_of ties.new ≡ (parameters_of (here_of ties.old) function params.now).after) }
{
    let mut numbers = Items::new(ties.alloc);
    for param in params {
        numbers.push(parameter(ties, function, param)?)?;
    }
    Ok(numbers)
}

impl<'s, 'a> Source<'s, 'a> {
    /// Nothing is declared yet.
    pub fn new(alloc: Global, items: &'a [Item], facts: &'s Facts) -> Source<'s, 'a>
        ensures { source_of result ≡ opening items.now facts.now.tokens facts.now.exposed.keys }
    {
        Source {
            ties: Ties {
                alloc,
                items,
                facts,
                names: Scopes::new(alloc),
                objects: Items::new(alloc),
            },
            functions: Items::new(alloc),
            notes: Vec::new(alloc),
        }
    }

    /// The number of the function of this name, which is added where it is not declared yet.
    fn number_of(&mut self, function: &'a Function) -> Result<u32, Memory>
        ensures number { IfOk result (λ number. number ≡ number_of (source_of self.old) function.now) }
        ensures after { OnOk result (source_of self.new ≡ with_function (source_of self.old) function.now) }
    {
        match function_number(self.ties.find(function.name.name.as_bytes())) {
            Some(number) => Ok(number),
            None => {
                let Ok(number) = u32::try_from(self.functions.len()) else {
                    return Err(Memory);
                };
                self.functions.push(declared(self.ties.alloc, function)?)?;
                Ok(number)
            },
        }
    }

    /// Declares the function that is this item, and answers its number.
    fn declare(&mut self, item: usize, function: &'a Function) -> Result<u32, Memory>
        ensures number { IfOk result (λ number. number ≡ number_of (source_of self.old) function.now) }
        ensures after { OnOk result (source_of self.new ≡ after_declaration (source_of self.old) item function.now) }
    {
        let number = self.number_of(function)?;
        let name = function.name.name.as_bytes();
        self.ties.declare(name, Tie::Function { number, item })?;
        Ok(number)
    }

    /// Defines the function of this number.
    fn define(&mut self, number: u32, function: &'a Function, body: &'a Block) -> Result<(), Memory>
        ensures { OnOk result (source_of self.new ≡ after_definition (source_of self.old) number function.now body.now) }
    {
        let len = self.ties.names.len();
        let params = parameters(&mut self.ties, number, function.params.as_slice())?;
        let inside = Inside {
            function: number,
            gives: function.gives,
        };
        let body = block(&mut self.ties, inside, body, &mut self.notes)?;
        self.ties.leave(len);
        let whole = defined(self.ties.alloc, function, params, body)?;
        complete(&mut self.functions, number, whole);
        Ok(())
    }

    fn function(&mut self, item: usize, function: &'a Function) -> Result<(), Memory>
        ensures { OnOk result (source_of self.new ≡ after_function (source_of self.old) item function.now) }
    {
        let number = self.declare(item, function)?;
        match &function.body {
            Some(body) => self.define(number, function, body),
            None => Ok(()),
        }
    }

    fn item(&mut self, number: usize, item: &'a Item) -> Result<(), Memory>
        ensures { OnOk result (source_of self.new ≡ after_item (source_of self.old) number item.now) }
    {
        match item {
            Item::Objects(list) => objects(&mut self.ties, list.decls.as_slice()),
            Item::Function(function) => self.function(number, function),
            Item::ExternFlag { .. } => Ok(()),
        }
    }

    /// Ties the names of all items.
    pub fn items(&mut self, items: &'a [Item]) -> Result<(), Memory>
        ensures { OnOk result (source_of self.new ≡ after_items (source_of self.old) 0 items.now) }
    {
        for number in 0..items.len() {
            self.item(number, &items[number])?;
        }
        Ok(())
    }
}
