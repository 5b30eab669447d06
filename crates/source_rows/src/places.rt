//! What a header alone tells of the arrays of a program.
ghost use Rattle.std.specs.Prelude.{◌≡◌, IfOk, None, length};
ghost use Rattle.std.specs.List.{slice_index_or};
ghost use Rattle.domino_check.specs.Accepted.{AreSized};
ghost use Rattle.domino_check.specs.SourceGroups.{cells_of};
ghost use Rattle.domino_check.specs.Place.{marked_copy, is_open_at, marked_place};
ghost use Rattle.source_rows.specs.Opened.{AreOpen, ArePlaces, cells_in, opens};

use crate::mark::Mark;
use crate::mark_values::Copied;
use crate::marked::walk;
use domino_check::{ArrayInfo, Checked};
use mp5_words::{NoMemory, cell_of};
use std::alloc::Global;

/// Whether some site that touches the array is open, for each of sixteen arrays.
pub fn open_arrays(alloc: Global, checked: &Checked, header: &[i32]) -> Result<[bool; 16], NoMemory>
    ensures { IfOk result (AreOpen (marked_copy checked.now header.now)) }
{
    let walked = walk(alloc, checked, header)?;
    Ok(opens_of(&walked.copies))
}

// The same of what is known of each array.
fn opens_of(copies: &[Option<Copied>]) -> [bool; 16]
    ensures { AreOpen (λ a. slice_index_or copies.now a None) result }
{
    let mut row = [false; 16];
    for a in 0..16 {
        row[a] = is_open(copies, a);
    }
    row
}

fn is_open(copies: &[Option<Copied>], a: usize) -> bool
    ensures { result ≡ is_open_at (slice_index_or copies.now a None) }
{
    if copies.len() <= a {
        return false;
    }
    match &copies[a] {
        Some(copied) => some_open(copied.under.as_slice()),
        None => false,
    }
}

fn some_open(guards: &[Mark]) -> bool
    ensures { result ≡ opens guards.now }
{
    guards.iter().any(|guard| guard.is_open)
}

/// The place that its index names in each of sixteen arrays, at the first site that touches it and by the header alone;
/// 0 for an array that no site touches.
pub fn array_places(alloc: Global, checked: &Checked, header: &[i32]) -> Result<[u32; 16], NoMemory>
    ensures { IfOk result
        (ArePlaces (cells_of checked.now) (marked_copy checked.now header.now)) }
{
    let walked = walk(alloc, checked, header)?;
    Ok(places_of(checked.arrays(), &walked.copies))
}

// The same of what is known of each array.
fn places_of(infos: &[ArrayInfo], copies: &[Option<Copied>]) -> [u32; 16]
    requires sized { AreSized infos.now }
    requires long { length copies.now ≡ length infos.now }
    ensures { ArePlaces (cells_in infos.now) (λ a. slice_index_or copies.now a None) result }
{
    let mut row = [0; 16];
    for a in 0..16 {
        row[a] = place_of(infos, copies, a);
    }
    row
}

fn place_of(infos: &[ArrayInfo], copies: &[Option<Copied>], a: usize) -> u32
    requires sized { AreSized infos.now }
    requires long { length copies.now ≡ length infos.now }
    ensures { result ≡ marked_place (cells_in infos.now a) (slice_index_or copies.now a None) }
{
    if copies.len() <= a {
        return 0;
    }
    match &copies[a] {
        Some(copied) => cell_of(copied.index.word, infos[a].length),
        None => 0,
    }
}
