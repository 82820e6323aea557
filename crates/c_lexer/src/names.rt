// The names that are defined, with their values.

ghost use Rattle.std.specs.Prelude.{◌≡◌, IfOk, OnOk};
ghost use Rattle.std.specs.Option.{is_some};
ghost use Rattle.c_lexer.specs.Names.{value_named, with_definition, predefined};
ghost use Rattle.c_lexer.specs.Views.{names_of};

use indexmap::IndexMap;
use std::alloc::{AllocError, Global};

/// The defined names, in the order of the text.
#[derive(Drop)]
pub(crate) struct Names<'a> {
    values: IndexMap<&'a [u8], i32>,
}

impl<'a> Names<'a> {
    /// What is defined before a text.
    pub(crate) fn new(alloc: Global) -> Result<Names<'a>, AllocError>
        ensures { IfOk result (λ names. names_of names ≡ predefined) }
    {
        let mut names = Names {
            values: IndexMap::new(alloc),
        };
        names.define(b"MAX_16", 32767)?;
        names.define(b"MIN_16", -32768)?;
        names.define(b"MAX_32", i32::MAX)?;
        names.define(b"MIN_32", i32::MIN)?;
        Ok(names)
    }

    /// The value of the name, if it is defined.
    pub(crate) fn value_of(&self, name: &[u8]) -> Option<i32>
        ensures { result ≡ value_named (names_of self.now) name.now }
    {
        self.values.get(name).copied()
    }

    /// Defines the name, unless it is defined already.
    pub(crate) fn define(&mut self, name: &'a [u8], value: i32) -> Result<(), AllocError>
        ensures { OnOk result (names_of self.new ≡ with_definition (names_of self.old) name.now value) }
    {
        if self.value_of(name).is_none() {
            self.values.insert(name, value)?;
        }
        Ok(())
    }
}
