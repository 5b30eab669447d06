//! The table of where the arrays stand.
ghost use Rattle.std.specs.Prelude.{◌≡◌, ◌+◌, ◌<◌, ◌≤◌, ◌^◌, IfOk, IfSome, length};
ghost use Rattle.code_forms.specs.FlatMeaning.{index_slot};
ghost use Rattle.code_forms.specs.Staged.{stored_operand, group_from, cells_before, in_parts, IsStaged};
ghost use Rattle.code_forms.specs.Spots.{AreSpots, spot_of, is_index, store_of, shares, home_in, start_in, AreFew, AreSmall};

use crate::flat::{FlatArray, FlatCode, Instr, Operand};
use crate::parts::{StagedGroup, StagedParts};
use crate::spot::Spot;
use crate::unit::{length_of, share_of};
use sqlite_items::Items;
use std::alloc::{AllocError, Global};

/// Where the arrays of the code stand, in these parts.
pub(crate) fn table_of(
    alloc: Global,
    code: &FlatCode,
    parts: &StagedParts,
) -> Result<Items<Spot>, AllocError>
    requires { IsStaged (in_parts code.now parts.now) }
    ensures { IfOk result (λ spots. AreSpots (in_parts code.now parts.now) spots) }
{
    let mut spots = Items::new(alloc);
    for array in 0..code.arrays.len() {
        spots.push(spot_in(code, parts, array as u32))?;
    }
    Ok(spots)
}

// Where an array stands.
fn spot_in(code: &FlatCode, parts: &StagedParts, array: u32) -> Spot
    requires { IsStaged (in_parts code.now parts.now) }
    ensures { result ≡ spot_of (in_parts code.now parts.now) array }
{
    let instrs = code.instrs.as_slice();
    let flat = code.arrays.as_slice();
    let (start, sharded) = place_in(flat, parts.groups.as_slice(), array);
    Spot {
        length: length_of(flat, array),
        index: index_slot(code.fields, instrs, array),
        start,
        sharded,
        stored: stored_operand(instrs, array),
    }
}

// How many cells stand before an array's in a unit of its group, and whether the group is sharded.
fn place_in(flat: &[FlatArray], groups: &[StagedGroup], array: u32) -> (u32, bool)
    requires lengths { AreFew flat.now }
    requires groups { AreSmall groups.now }
    ensures start { result.0 ≡ start_in flat.now (home_in groups.now array) array }
    ensures sharded { result.1 ≡ (home_in groups.now array).sharded }
{
    match group_of(groups, array) {
        Some(g) => {
            let group = &groups[g];
            (cells_before(flat, group, array), group.sharded)
        }
        None => (0, false),
    }
}

// The number of the first group that has the array.
fn group_of(groups: &[StagedGroup], array: u32) -> Option<usize>
    ensures group { result ≡ group_from groups.now 0 array }
    ensures bound { IfSome result (λ g. g < length groups.now) }
{
    for g in 0..groups.len() {
        if groups[g].arrays.as_slice().contains(&array) {
            return Some(g);
        }
    }
    None
}

// How many cells stand before an array's in a unit of its group.
fn cells_before(flat: &[FlatArray], group: &StagedGroup, array: u32) -> u32
    requires few { length group.now.arrays ≤ 16 }
    requires lengths { AreFew flat.now }
    ensures { result ≡ cells_before (shares flat.now group.now.sharded) group.now.arrays array }
{
    let mut before = 0;
    for other in group.arrays.as_slice() {
        if *other == array {
            return before;
        }
        before += share_of(flat, group.sharded, *other);
    }
    before
}

// The slot of the array's Index.
fn index_slot(fields: u32, instrs: &[Instr], array: u32) -> u32
    requires { fields + length instrs.now < 2 ^ 32 }
    ensures { result ≡ index_slot instrs.now fields array }
{
    let mut slot = fields;
    for instr in instrs {
        if is_index(*instr, array) {
            return slot;
        }
        slot += 1;
    }
    slot
}

// Whether an instruction is the array's Index.
fn is_index(instr: Instr, array: u32) -> bool
    ensures { result ≡ is_index instr array }
{
    match instr {
        Instr::Index(a, _) => a == array,
        _ => false,
    }
}

// What the array's Store writes.
fn stored_operand(instrs: &[Instr], array: u32) -> Operand
    ensures { result ≡ stored_operand instrs.now array }
{
    for instr in instrs {
        if let Some(operand) = store_of(*instr, array) {
            return operand;
        }
    }
    Operand::Number(0)
}

// What an instruction writes, if it is the array's Store.
fn store_of(instr: Instr, array: u32) -> Option<Operand>
    ensures { result ≡ store_of instr array }
{
    match instr {
        Instr::Store(a, operand) if a == array => Some(operand),
        _ => None,
    }
}
