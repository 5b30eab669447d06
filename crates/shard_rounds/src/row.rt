//! A row of numbers, one for each unit of a group.
ghost use Rattle.std.specs.Prelude.{◌≡◌, ◌<◌, [], ◌∷◌, ◌++◌, length, IfOk, OnOk, replicate, slice_index, slice_set};

use mp5_words::NoMemory;
use std::alloc::Global;
use std::marker::Model;

/// A row of numbers, seen as a list.
#[derive(Drop)]
pub(crate) struct Row {
    numbers: Vec<u32>,
}

impl Model for Row {
    ghost use Rattle.std.specs.Prelude.{List, ℕ};

    ghost Value = { List ℕ };

    ghost view = { λ r. r.numbers.items };
}

impl Row {
    /// An empty row with room for so many numbers.
    pub(crate) fn with_room(alloc: Global, count: u32) -> Result<Row, NoMemory>
        ensures { IfOk result (λ row. row ≡ []) }
    {
        Ok(Row {
            numbers: Vec::with_capacity(alloc, count as usize)?,
        })
    }

    /// A row of zeros.
    pub(crate) fn zeros(alloc: Global, count: u32) -> Result<Row, NoMemory>
        ensures { IfOk result (λ row. row ≡ replicate count 0) }
    {
        Ok(Row {
            numbers: vec![in alloc; 0; count as usize]?,
        })
    }

    /// Adds a number at the end.
    pub(crate) fn push(&mut self, number: u32) -> Result<(), NoMemory>
        ensures { OnOk result (self.new ≡ self.old ++ number ∷ []) }
    {
        match self.numbers.push(number) {
            Ok(()) => Ok(()),
            Err(_) => Err(NoMemory),
        }
    }

    /// The numbers.
    pub(crate) fn as_slice(&self) -> &[u32]
        ensures { result.now ≡ self.now }
    {
        &self.numbers
    }

    /// The number of a unit.
    pub(crate) fn at(&self, unit: u32) -> u32
        requires { unit < length self.now }
        ensures { result ≡ slice_index self.now unit }
    {
        self.numbers[unit as usize]
    }

    /// Gives a unit another number.
    pub(crate) fn set(&mut self, unit: u32, number: u32)
        requires { unit < length self.old }
        ensures { self.new ≡ slice_set self.old unit number }
    {
        self.numbers[unit as usize] = number;
    }
}
