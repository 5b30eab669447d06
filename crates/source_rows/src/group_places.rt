//! The places of a header at the groups of a program's arrays.
ghost use Rattle.std.specs.Prelude.{◌≡◌, ◌↔◌, IsTrue, IfOk, length, slice_index};
ghost use Rattle.domino_check.specs.Place.{IsUnit};
ghost use Rattle.source_rows.specs.Answers.{TellsPlace, SomeOpen, IsFirstPlace};

use crate::members::{first_of, is_of};
use crate::order::text_order;
use crate::places::{array_places, open_arrays};
use crate::shards::is_sharded;
use dependence::ArrayGroups;
use domino_check::Checked;
use mp5_words::NoMemory;
use std::alloc::Global;

/// The unit of a header's place at a group: of a sharded one the place that its index names at the first site that
/// touches one of its arrays, else 0. None where the header has no place at the group.
pub fn place(
    alloc: Global,
    checked: &Checked,
    header: &[i32],
    groups: &ArrayGroups,
    group: u32,
) -> Result<Option<u32>, NoMemory>
    ensures { IfOk result (TellsPlace checked.now header.now groups.now.of group) }
{
    let marks = open_arrays(alloc, checked, header)?;
    if some_open(&marks, &groups.of, group) {
        let unit = unit(alloc, checked, header, groups, group)?;
        Ok(Some(unit))
    } else {
        Ok(None)
    }
}

// Whether an array of the group is open.
fn some_open(marks: &[bool; 16], of: &[Option<u32>; 16], group: u32) -> bool
    ensures told { IsTrue result ↔ SomeOpen marks.now of.now group }
    ensures wide { length of.now ≡ 16 }
{
    for a in 0..16 {
        if is_of(of, group, a) && marks[a] {
            return true;
        }
    }
    false
}

// The unit of a place at the group.
fn unit(
    alloc: Global,
    checked: &Checked,
    header: &[i32],
    groups: &ArrayGroups,
    group: u32,
) -> Result<u32, NoMemory>
    ensures { IfOk result (IsUnit checked.now header.now groups.now.of group) }
{
    if !is_sharded(alloc, checked, groups, group)? {
        return Ok(0);
    }
    let places = array_places(alloc, checked, header)?;
    let touched = text_order(alloc, checked)?;
    Ok(first_place(&places, &groups.of, group, touched.as_slice()))
}

// The place in the first of these arrays that is of the group.
fn first_place(places: &[u32; 16], of: &[Option<u32>; 16], group: u32, arrays: &[u32]) -> u32
    ensures place { IsFirstPlace places.now of.now group arrays.now result }
    ensures wide { length of.now ≡ 16 }
{
    match first_of(of, group, arrays) {
        Some(a) => place_in(places, a as usize),
        None => 0,
    }
}

// The place in an array; 0 past them all.
fn place_in(places: &[u32; 16], a: usize) -> u32
    ensures { result ≡ slice_index places.now a }
{
    if a < 16 { places[a] } else { 0 }
}
