//! How a group is served on the cells of a unit.
ghost use Rattle.std.specs.Prelude.{◌≡◌, ◌+◌, ◌<◌, length, fold, slice_set, replicate, false};
ghost use Rattle.mp5_words.specs.Cells.{bits};
ghost use Rattle.code_forms.specs.Staged.{group_at, group_start, block_start, guards_of, IsGroup};
ghost use Rattle.code_forms.specs.StagedMeaning.{is_open, array_set, Leads, IsPlaced, Serves, Touches};
ghost use Rattle.code_forms.specs.Spots.{spot_store, mark_open};

use crate::flat::{FlatArray, Operand};
use crate::sets::added;
use crate::spot::{Spot, cell_at, operand_word, spot_of};
use crate::staged::StagedCode;
use crate::unit::Unit;
use sqlite_items::Items;

impl StagedCode {
    /// Runs a group on the cells of the unit at which the header has its place: each Load gives its cell of the unit,
    /// and each Store writes it. Gives the set of the arrays of the group that are touched, bit `a` for array `a`.
    pub fn serve(&self, g: u32, env: &mut [i32], unit: &mut Unit) -> u16
        requires { g < length self.now.groups }
        ensures env { Leads self.now (IsPlaced self.now g unit.old.number unit.old.cells)
            (group_start self.now g) (block_start self.now (g + 1)) env.old env.new }
        ensures cells { Serves self.now g unit.old env.old unit.new.cells }
        ensures touched { Touches self.now g unit.old env.old result }
        ensures group { unit.new.group ≡ unit.old.group }
        ensures number { unit.new.number ≡ unit.old.number }
    {
        self.run_part(2 * g as usize + 1, env, unit.cells.as_slice());
        let arrays = self.group(g).arrays.as_slice();
        store_all(self.spots.as_slice(), arrays, env, &mut unit.cells);
        touched_set(self.arrays.as_slice(), arrays, env)
    }

    /// The set of the arrays of a group, bit `a` for array `a`.
    pub fn arrays(&self, g: u32) -> u16
        requires { g < length self.now.groups }
        ensures set { result ≡ array_set (group_at self.now g).arrays }
        ensures laws { IsGroup self.now g }
    {
        set_of_arrays(self.group(g).arrays.as_slice())
    }
}

// Writes the Stores of these arrays to a unit's cells.
fn store_all(spots: &[Spot], arrays: &[u32], env: &[i32], cells: &mut Items<i32>)
    ensures { cells.new ≡ fold (spot_store spots.now env.now) cells.old arrays.now }
{
    for array in arrays {
        let spot = spot_of(spots, *array);
        put_cell(cells, cell_at(spot, env), operand_word(env, spot.stored));
    }
}

// Writes a word to a cell. Past them all nothing is written.
fn put_cell(cells: &mut Items<i32>, place: usize, word: i32)
    ensures { cells.new ≡ slice_set cells.old place word }
{
    if place < cells.len() {
        cells.set(place, word);
    }
}

// The set of those of these arrays that are touched.
fn touched_set(flat: &[FlatArray], arrays: &[u32], env: &[i32]) -> u16
    ensures { result ≡ bits (fold (mark_open flat.now env.now) (replicate 16 false) arrays.now) }
{
    let mut marks = [false; 16];
    let mut set = 0;
    for array in arrays {
        set = added(set, &mut marks, *array, is_touched(flat, *array, env));
    }
    set
}

// The set of these arrays.
fn set_of_arrays(arrays: &[u32]) -> u16
    ensures { result ≡ array_set arrays.now }
{
    let mut marks = [false; 16];
    let mut set = 0;
    for array in arrays {
        set = added(set, &mut marks, *array, true);
    }
    set
}

/// Whether some guard of an array isn't 0.
pub(crate) fn is_touched(flat: &[FlatArray], array: u32, env: &[i32]) -> bool
    ensures { result ≡ is_open env.now (guards_of flat.now array) }
{
    match flat.get(array as usize) {
        Some(found) => some_open(found.touched.as_slice(), env),
        None => false,
    }
}

// Whether some of these guards isn't 0.
fn some_open(guards: &[Operand], env: &[i32]) -> bool
    ensures { result ≡ is_open env.now guards.now }
{
    for guard in guards {
        if operand_word(env, *guard) != 0 {
            return true;
        }
    }
    false
}
