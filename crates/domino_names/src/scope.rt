ghost use Rattle.std.specs.Prelude.{◌≡◌, ◌≤◌, length};
ghost use Rattle.domino_tree.specs.Value.{number_of, array_number, field_number};

use crate::infos::ArrayInfo;
use crate::symbol_table::Symbols;
use mp5_words::Name;
use std::marker::Model;

/// The table of a program's names, with its fields and arrays; seen as the names.
#[derive(Drop)]
pub struct Scope<'a> {
    symbols: &'a Symbols<'a>,
    fields: &'a [Name],
    arrays: &'a [ArrayInfo],
}

impl<'a> Model for Scope<'a> {
    ghost use Rattle.domino_tree.specs.Value.{Names};

    ghost Value = { Names };

    ghost use Rattle.domino_names.specs.Symbols.{names_from, IsScope};

    ghost view = { λ s. names_from s.symbols.now s.fields.now s.arrays.now };

    ghost invariant = { λ s. IsScope s.symbols.now s.fields.now s.arrays.now };
}

impl<'a> Scope<'a> {
    ghost use Rattle.domino_names.specs.Symbols.{names_from, IsScope};

    /// The names that the table and these lists declare.
    pub fn new(symbols: &'a Symbols<'a>, fields: &'a [Name], arrays: &'a [ArrayInfo]) -> Scope<'a>
        requires { IsScope symbols.now fields.now arrays.now }
        ensures { result ≡ names_from symbols.now fields.now arrays.now }
    {
        Scope {
            symbols,
            fields,
            arrays,
        }
    }

    /// The number that a name is defined as, where it is.
    pub fn number_of(&self, name: &Name) -> Option<i32>
        ensures { result ≡ number_of name.now self.now.defines }
    {
        self.symbols.number_of(name)
    }

    /// The number of a field; past them all where it isn't declared.
    pub fn field_number(&self, name: &Name) -> u32
        ensures { result ≡ field_number self.now name.now }
    {
        self.symbols.field(name).unwrap_or(self.fields.len()) as u32
    }

    /// The number of an array; past them all where it isn't declared.
    pub fn array_number(&self, name: &Name) -> u32
        ensures { result ≡ array_number self.now name.now }
    {
        self.symbols.array(name).unwrap_or(self.arrays.len()) as u32
    }
}
