// The names that are in scope at a place of a source, and what they stand for.

ghost use Rattle.std.specs.Prelude.{◌≡◌, [], OnOk, length, drop, ◌-◌};
ghost use Rattle.c_seen.specs.Meanings.{names_of, meaning, is_taken, called_by, wanted_at, wanted_by, need_of, kind_of, declaring, is_function, called_predefined};

use crate::functions::{Declaration, function_at, is_defined, is_view};
use crate::seen::{Called, Kind, Meaning, Need, View, Wanted};
use c_scopes::{Declared, Scopes};
use c_tree::{Decl, Item, Param};
use c_typed::Callee;
use declared_objects::is_array;
use predefined_calls::{arity, callee_named, gives};
use sat_base::{At, Memory};

/// What is in scope at a place of a source.
#[derive(Drop)]
pub struct Scope<'s, 'a> {
    /// The items of the source.
    pub(crate) items: &'a [Item],
    /// All functions of the source.
    pub(crate) functions: &'s Scopes<'a, Declaration>,
    /// The names that are declared.
    pub(crate) names: Scopes<'a, Meaning>,
}

impl<'s, 'a> Scope<'s, 'a> {
    /// What the name stands for.
    pub(crate) fn meaning(&self, name: &[u8]) -> Option<Meaning>
        ensures { result ≡ meaning (names_of self.now) name.now }
    {
        match self.names.find(name) {
            Some(declared) => Some(declared.what),
            None => match callee_named(name) {
                Some(callee) => Some(Meaning::Predefined(callee)),
                None => None,
            },
        }
    }

    /// Whether the name may not be declared at this depth.
    pub(crate) fn is_taken(&self, name: &[u8], depth: u32, as_function: bool) -> bool
        ensures { result ≡ is_taken (names_of self.now) name.now depth as_function }
    {
        callee_named(name).is_some()
            || match self.names.find(name) {
                Some(declared) => declared.depth == depth
                    && !(as_function && is_function(declared.what)),
                None => false,
            }
    }

    /// What is called by the name.
    pub(crate) fn called(&self, name: &[u8]) -> Called
        ensures { result ≡ called_by (names_of self.now) name.now }
    {
        match self.meaning(name) {
            None => Called::Unknown,
            Some(Meaning::Object { .. }) => Called::NoFunction,
            Some(Meaning::Predefined(callee)) => predefined(callee),
            Some(Meaning::Function { item }) => match function_at(self.items, item) {
                Some(function) => Called::Function {
                    gives: function.gives.is_some(),
                    parameters: function.params.len(),
                    is_defined: is_defined(self.functions, name),
                    is_main: name == b"main".as_slice(),
                },
                None => Called::NoFunction,
            },
        }
    }

    /// What the argument at the place, counted from 0, is given to.
    pub(crate) fn wanted(&self, meaning: Option<Meaning>, place: usize) -> Wanted
        ensures { result ≡ wanted_at self.now.items.now meaning place }
    {
        match meaning {
            Some(Meaning::Predefined(callee)) => if place < arity(callee) as usize {
                Wanted::Number
            } else {
                Wanted::Nothing
            },
            Some(Meaning::Function { item }) => match function_at(self.items, item) {
                Some(function) => match function.params.get(place) {
                    Some(param) => wanted_by(param),
                    None => Wanted::Nothing,
                },
                None => Wanted::Nothing,
            },
            _ => Wanted::Nothing,
        }
    }

    /// Declares a name at this depth.
    pub(crate) fn declare(
        &mut self,
        name: &'a [u8],
        depth: u32,
        what: Meaning,
    ) -> Result<(), Memory>
        ensures { OnOk result (names_of self.new ≡ declaring (names_of self.old) name.now depth what) }
    {
        self.names.declare(name, Declared { depth, what })
    }

    /// The number of declarations in scope.
    pub(crate) fn len(&self) -> usize
        ensures { result ≡ length self.now.names }
    {
        self.names.len()
    }

    /// Forgets all but the oldest of these many declarations.
    pub(crate) fn leave(&mut self, len: usize)
        ensures { self.new ≡ record self.old { names = drop (length self.old.names - len) self.old.names } }
    {
        self.names.leave(len)
    }
}

fn is_function(meaning: Meaning) -> bool
    ensures { result ≡ is_function meaning }
{
    matches!(meaning, Meaning::Function { .. })
}

fn predefined(callee: Callee) -> Called
    ensures { result ≡ called_predefined callee }
{
    Called::Function {
        gives: gives(callee).is_some(),
        parameters: arity(callee) as usize,
        is_defined: true,
        is_main: false,
    }
}

fn wanted_by(param: &Param) -> Wanted
    ensures { result ≡ wanted_by param.now }
{
    if is_view(param) {
        Wanted::View(View {
            width: param.width,
            is_const: param.is_const,
        })
    } else {
        Wanted::Number
    }
}

/// What is needed of an argument that begins at this token.
pub(crate) fn need_of(wanted: Wanted, first: At) -> Need
    ensures { result ≡ need_of wanted first }
{
    match wanted {
        Wanted::Number => Need::Number,
        Wanted::View(view) => Need::View { view, first },
        Wanted::Nothing => Need::Nothing,
    }
}

/// What kind of object is declared.
pub(crate) fn kind_of(decl: &Decl) -> Kind
    ensures { result ≡ kind_of decl.now }
{
    if decl.pointer {
        Kind::View
    } else if !is_array(decl) {
        Kind::Scalar
    } else if decl.cols.is_none() {
        Kind::Array
    } else {
        Kind::Table
    }
}
