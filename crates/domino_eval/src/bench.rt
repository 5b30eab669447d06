ghost use Rattle.std.specs.Prelude.{◌≡◌, ◌<◌, ◌≤◌, length, slice_index, IfOk};
ghost use Rattle.domino_tree.specs.Value.{names_of, cell_counts};
ghost use Rattle.mp5_words.specs.Cells.{word_at, cells_at, bits};
ghost use Rattle.domino_tree.specs.Sequential.{start_cells};
ghost use Rattle.domino_eval.specs.Parts.{executed};
ghost use Rattle.domino_eval.specs.Places.{marks};

use crate::execution::run_block;
use domino_check::Checked;
use mp5_words::NoMemory;
use sqlite_items::Items;
use std::alloc::{AllocError, Global};
use std::marker::Model;

/// The cells of a program's register arrays, while its transaction is executed on one packet after another.
/// Seen as the program, and a list of words for each array, in order of declaration: as many as the array is
/// declared with.
#[derive(Drop)]
pub struct Bench<'a> {
    checked: &'a Checked,
    cells: Vec<Items<i32>>,
}

impl<'a> Model for Bench<'a> {
    ghost use Rattle.domino_eval.specs.Parts.{Held, held_code};
    ghost use Rattle.domino_eval.specs.Places.{IsBench};

    ghost Value = { Held };

    ghost coded = { held_code };

    ghost view = { λ b. record { program = b.checked.now; cells = b.cells.items } };

    ghost invariant = { λ b. IsBench b.checked.now b.cells.items };
}

impl<'a> Bench<'a> {
    /// A bench on which each cell has its start value.
    pub fn new(alloc: Global, checked: &'a Checked) -> Result<Bench<'a>, NoMemory>
        ensures { IfOk result (λ bench. bench
            ≡ record { program = checked.now; cells = start_cells (names_of checked.now) }) }
    {
        // It passed the checks, so no index of a touched array moves.
        let _program = checked.program();
        let cells = started(alloc, checked)?;
        Ok(Bench { checked, cells })
    }

    /// Executes the transaction once, on the fields and the cells. Gives the set of the arrays that it
    /// touched, bit `a` for array `a`.
    pub fn packet(&mut self, fields: &mut [i32]) -> u16
        ensures fields { fields.new ≡ (executed self.old fields.old).store.fields }
        ensures cells { self.new ≡ record {
          program = self.old.program;
          cells = (executed self.old fields.old).store.cells;
        } }
        ensures touched { result ≡ bits (executed self.old fields.old).touched }
    {
        let mut kept = [None; 16];
        let count = self.checked.arrays().len();
        let places = &mut kept[..count];
        run_block(
            self.checked,
            self.checked.body(),
            fields,
            &mut self.cells,
            places,
        );
        set_of(places)
    }

    /// Cell `i` of an array.
    pub fn cell(&self, array: u32, i: u32) -> i32
        requires array { array < length (names_of self.now.program).arrays }
        requires cell { i < slice_index (cell_counts (names_of self.now.program)) array }
        ensures { result ≡ word_at (cells_at self.now.cells array) i }
    {
        self.cells[array as usize].as_slice()[i as usize]
    }
}

// The start values of all cells.
fn started(alloc: Global, checked: &Checked) -> Result<Vec<Items<i32>>, AllocError>
    ensures { IfOk result (λ cells. cells.items ≡ start_cells (names_of checked.now)) }
{
    let mut all = Vec::new(alloc);
    for info in checked.arrays() {
        all.push(Items::from_vec(vec![in alloc; info.start; info.length as usize]?))?;
    }
    Ok(all)
}

// The set of the arrays whose place is kept, as a number: bit a for array a.
fn set_of(places: &[Option<u32>]) -> u16
    requires { length places.now ≤ 16 }
    ensures { result ≡ bits (marks places.now) }
{
    let mut set = 0;
    let count = places.len();
    for k in 0..count {
        set = 2 * set + u16::from(places[count - 1 - k].is_some());
    }
    set
}

#[cfg(test)]
mod tests {
    use super::*;

    #[test]
    fn array_a_is_bit_a(rt: HostRuntime) {
        assert_eq!(rt; set_of(&[]), 0);
        assert_eq!(rt; set_of(&[Some(7), None, Some(0)]), 5);
        assert_eq!(rt; set_of(&[Some(0); 16]), 65535);
    }
}
