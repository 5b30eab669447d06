//! The table of what the names of a program stand for.

ghost use Rattle.std.specs.Prelude.{◌≡◌, IfOk};
ghost use Rattle.domino_names.specs.declared.role.Class.TheVariants as class;
ghost use Rattle.domino_names.specs.Symbols.{symbol_in, number_from, field_from, array_from};
ghost use Rattle.domino_names.specs.Symbols.{is_new, with_new, hash_symbols};

use crate::role::{Class, Symbol};
use domino_tree::hash_name;
use indexmap::IndexMap;
use mp5_words::{HashKind, Name};
use std::alloc::{AllocError, Global};
use std::marker::Model;

/// What each name stands for, by its class and itself; seen as the declared names in order.
#[derive(Drop)]
pub struct Symbols<'a> {
    table: IndexMap<(Class, &'a [u8]), Symbol>,
}

impl<'a> Model for Symbols<'a> {
    ghost use Rattle.std.specs.Prelude.{List};
    ghost use Rattle.domino_names.specs.Symbols.{Named, named_in, AreClassed};

    ghost Value = { List Named };

    ghost view = { λ s. named_in s.table.entries };

    ghost invariant = { λ s. AreClassed s.table.entries };
}

impl<'a> Symbols<'a> {
    /// The table of the hash functions.
    pub(crate) fn new(alloc: Global) -> Result<Symbols<'a>, AllocError>
        ensures { IfOk result (λ symbols. symbols ≡ hash_symbols) }
    {
        let mut symbols = Symbols {
            table: IndexMap::new(alloc),
        };
        symbols.declare(hash_name(HashKind::Two).as_bytes(), Symbol::Hash)?;
        symbols.declare(hash_name(HashKind::TwoA).as_bytes(), Symbol::Hash)?;
        symbols.declare(hash_name(HashKind::TwoB).as_bytes(), Symbol::Hash)?;
        symbols.declare(hash_name(HashKind::Three).as_bytes(), Symbol::Hash)?;
        Ok(symbols)
    }

    /// What a name stands for in a class, where it is declared there.
    pub(crate) fn get(&self, class: Class, name: &[u8]) -> Option<Symbol>
        ensures { result ≡ symbol_in class name.now self.now }
    {
        self.table.get(&(class, name)).copied()
    }

    /// The number that a name is defined as, where it is.
    pub(crate) fn number_of(&self, name: &Name) -> Option<i32>
        ensures { result ≡ number_from (symbol_in class.Others name.now self.now) }
    {
        match self.get(Class::Others, name.bytes()) {
            Some(Symbol::Define(number)) => Some(number),
            _ => None,
        }
    }

    /// The number of the field that a name is declared as, where it is.
    pub(crate) fn field(&self, name: &Name) -> Option<usize>
        ensures { result ≡ field_from (symbol_in class.Fields name.now self.now) }
    {
        match self.get(Class::Fields, name.bytes()) {
            Some(Symbol::Field(field)) => Some(field),
            _ => None,
        }
    }

    /// The number of the array that a name is declared as, where it is.
    pub(crate) fn array(&self, name: &Name) -> Option<usize>
        ensures { result ≡ array_from (symbol_in class.Others name.now self.now) }
    {
        match self.get(Class::Others, name.bytes()) {
            Some(Symbol::Scalar(array) | Symbol::Array(array)) => Some(array),
            _ => None,
        }
    }

    /// Declares a name, and says whether it is new in its class; where it isn't, nothing changes.
    pub(crate) fn declare(&mut self, name: &'a [u8], symbol: Symbol) -> Result<bool, AllocError>
        ensures new { IfOk result (λ new. new ≡ is_new name.now symbol self.old) }
        ensures held { IfOk result (λ new. self.new ≡ with_new new self.old name.now symbol) }
    {
        let class = symbol.kind().class();
        if self.get(class, name).is_some() {
            return Ok(false);
        }
        self.table.insert((class, name), symbol)?;
        Ok(true)
    }
}
