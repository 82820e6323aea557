// The names that are in scope, with what is declared under them.

ghost use Rattle.std.specs.Prelude.{◌≡◌, [], ◌∷◌, ◌-◌, OnOk, OnErr, length, drop};
ghost use Rattle.c_scopes.specs.Scopes.{meaning_of};

use crate::place::place_of;
use indexmap::IndexMap;
use sat_base::Memory;
use std::alloc::Global;
use std::marker::Model;

/// What is declared under a name.
#[derive(Clone, Copy, Debug)]
pub struct Declared<T> {
    /// The number of scopes around its own: 0 at file scope.
    pub depth: u32,
    pub what: T,
}

/// A declaration that is in scope.
#[derive(Drop)]
struct Entry<'a, T> {
    name: &'a [u8],
    declared: Declared<T>,
    // the place of the declaration of the same name that it hides
    hidden: Option<usize>,
}

/// The names that are in scope, which contracts see as a list of names with what is declared under
/// them, newest first.
#[derive(Drop)]
pub struct Scopes<'a, T> {
    newest: IndexMap<&'a [u8], Option<usize>>,
    entries: Vec<Entry<'a, T>>,
}

impl<'a, T> Model for Scopes<'a, T> {
    ghost use Rattle.std.specs.Prelude.{List};
    ghost use Rattle.c_scopes.specs.Scopes.{Known};

    ghost Value = { List (Known T) };

    ghost use Rattle.c_scopes.specs.Tied.{names_of, Tied};

    ghost view = { names_of };

    ghost invariant = { Tied };
}

impl<'a, T: Copy> Scopes<'a, T> {
    /// Nothing is in scope.
    pub fn new(alloc: Global) -> Scopes<'a, T>
        ensures { result ≡ [] }
    {
        Scopes {
            newest: IndexMap::new(alloc),
            entries: Vec::new(alloc),
        }
    }

    /// The number of declarations in scope, hidden ones included.
    pub fn len(&self) -> usize
        ensures { result ≡ length self.now }
    {
        self.entries.len()
    }

    /// What the name stands for.
    pub fn find(&self, name: &[u8]) -> Option<Declared<T>>
        ensures { result ≡ meaning_of self.now name.now }
    {
        match place_of(&self.newest, name) {
            Some(place) => match self.entries.get(place) {
                Some(entry) => Some(entry.declared),
                None => None,
            },
            None => None,
        }
    }

    /// Declares a name, which hides any of the same name.
    pub fn declare(&mut self, name: &'a [u8], declared: Declared<T>) -> Result<(), Memory>
        ensures declared { OnOk result (self.new ≡ (name.now, declared) ∷ self.old) }
        ensures kept { OnErr result (self.new ≡ self.old) }
    {
        let place = self.len();
        let hidden = place_of(&self.newest, name);
        self.entries.push(Entry {
            name,
            declared,
            hidden,
        })?;
        match self.newest.insert(name, Some(place)) {
            Ok(_) => Ok(()),
            Err(_) => {
                self.entries.pop();
                Err(Memory)
            }
        }
    }

    /// Forgets all but the oldest of these many, as a scope is left.
    pub fn leave(&mut self, len: usize)
        ensures { self.new ≡ drop (length self.old - len) self.old }
    {
        while self.len() > len {
            self.forget();
        }
    }

    // Forgets the newest, and what it hid is in scope again.
    fn forget(&mut self)
        ensures { self.new ≡ drop 1 self.old }
    {
        if let Some(entry) = self.entries.pop() {
            let _ = self.newest.insert(entry.name, entry.hidden);
        }
    }
}
