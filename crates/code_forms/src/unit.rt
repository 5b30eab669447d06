//! The cells of one unit of a group.
ghost use Rattle.std.specs.Prelude.{◌≡◌, ◌<◌, ℕ, Bool, if◌then◌else◌, length, flat_map, replicate, IfOk};
ghost use Rattle.code_forms.specs.FlatMeaning.{flat_length};
ghost use Rattle.code_forms.specs.Staged.{group_at, unit_count};
ghost use Rattle.code_forms.specs.StagedMeaning.{start_of, start_cells};

use crate::flat::FlatArray;
use crate::staged::StagedCode;
use mp5_words::NoMemory;
use sqlite_items::Items;
use std::alloc::{AllocError, Global};

/// A unit of a group, with its cells. A unit of a sharded group has one cell of each array of the group, in order of
/// declaration. The one unit of any other group has the whole arrays of the group, one after another.
#[derive(Debug, Drop)]
pub struct Unit {
    pub group: u32,
    pub number: u32,
    pub cells: Items<i32>,
}

impl StagedCode {
    /// A unit of a group, whose cells have their start values.
    pub fn unit(&self, alloc: Global, g: u32, u: u32) -> Result<Unit, NoMemory>
        requires group { g < length self.now.groups }
        requires number { u < unit_count self.now (group_at self.now g) }
        ensures group { IfOk result (λ t. t.group ≡ g) }
        ensures number { IfOk result (λ t. t.number ≡ u) }
        ensures cells { IfOk result (λ t. t.cells ≡ start_cells self.now (group_at self.now g)) }
    {
        let group = self.group(g);
        let cells = cells_of(
            alloc,
            self.arrays.as_slice(),
            group.sharded,
            group.arrays.as_slice(),
        )?;
        Ok(Unit {
            group: g,
            number: u,
            cells,
        })
    }
}

// The cells of these arrays at the start, one array after another: one cell each, or all.
fn cells_of(
    alloc: Global,
    flat: &[FlatArray],
    sharded: bool,
    arrays: &[u32],
) -> Result<Items<i32>, AllocError>
    ensures { IfOk result (λ cells. cells ≡ flat_map (λ a. replicate
        (if sharded then 1 else flat_length flat.now a) (start_of flat.now a)) arrays.now) }
{
    let mut cells = Items::new(alloc);
    for array in arrays {
        cells.append(array_cells(alloc, flat, sharded, *array)?)?;
    }
    Ok(cells)
}

// The cells of an array at the start: one cell, or all.
fn array_cells(
    alloc: Global,
    flat: &[FlatArray],
    sharded: bool,
    array: u32,
) -> Result<Items<i32>, AllocError>
    ensures { IfOk result (λ cells. cells ≡
        replicate (if sharded then 1 else flat_length flat.now array) (start_of flat.now array)) }
{
    let start = start_of(flat, array);
    let count = share_of(flat, sharded, array) as usize;
    Ok(Items::from_vec(vec![in alloc; start; count]?))
}

// The start value of an array's cells.
fn start_of(flat: &[FlatArray], array: u32) -> i32
    ensures { result ≡ start_of flat.now array }
{
    match flat.get(array as usize) {
        Some(found) => found.start,
        None => 0,
    }
}

/// How many cells of an array a unit has: one, or all.
pub(crate) fn share_of(flat: &[FlatArray], sharded: bool, array: u32) -> u32
    ensures { result ≡ (if sharded then 1 else flat_length flat.now array) }
{
    if sharded { 1 } else { length_of(flat, array) }
}

/// How many cells an array has; 1 past them all.
pub(crate) fn length_of(flat: &[FlatArray], array: u32) -> u32
    ensures { result ≡ flat_length flat.now array }
{
    match flat.get(array as usize) {
        Some(found) => found.length,
        None => 1,
    }
}
