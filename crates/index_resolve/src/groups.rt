//! The groups of arrays.
ghost use Rattle.std.specs.Prelude.{◌≡◌, ◌≤◌, ◌<◌, ◌+◌, ◌^◌, IfOk, OnOk, length, slice_index};
ghost use Rattle.code_forms.specs.FlatMeaning.{index_slot, flat_length};
ghost use Rattle.code_forms.specs.SameIndexes.{same_of};
ghost use Rattle.code_forms.specs.Spots.{is_index};
ghost use Rattle.flat_graph.specs.Layouts.{spot_at};
ghost use Rattle.index_resolve.specs.Groups.{AreOfSet, is_like, can_shard, depth_at, IsDepthAt};

use crate::clean::clean_at;
use code_forms::{FlatArray, FlatCode, Instr, Spot};
use std::alloc::{AllocError, Global};

/// The arrays of a set, in order.
pub(crate) fn arrays_of(alloc: Global, set: u16) -> Result<Vec<u32>, AllocError>
    ensures { IfOk result (λ arrays. AreOfSet set arrays.items) }
{
    let mut arrays = Vec::with_capacity(alloc, 16)?;
    let mut rest = set;
    for array in 0..16u32 {
        if rest % 2 == 1 {
            arrays.push(array)?;
        }
        rest /= 2;
    }
    Ok(arrays)
}

/// Whether arrays can be sharded: each Index is clean, and all have one `same` and one length.
pub(crate) fn can_shard(code: &FlatCode, clean: &[bool], group: &[u32]) -> bool
    requires { code.now.fields + length code.now.instrs < 2 ^ 32 }
    ensures { result
        ≡ can_shard clean.now code.now.fields code.now.arrays code.now.instrs group.now }
{
    let first = group.first().copied().unwrap_or(0);
    for array in group {
        if !is_like(code, clean, first, *array) {
            return false;
        }
    }
    true
}

// Whether an array's Index is clean, and the array has the `same` and the length of another.
fn is_like(code: &FlatCode, clean: &[bool], first: u32, array: u32) -> bool
    requires { code.now.fields + length code.now.instrs < 2 ^ 32 }
    ensures { result
        ≡ is_like clean.now code.now.fields code.now.arrays code.now.instrs first array }
{
    let arrays = code.arrays.as_slice();
    let slot = index_slot(code.fields, code.instrs.as_slice(), array);
    clean_at(clean, slot as usize)
        && same_of(arrays, array) == same_of(arrays, first)
        && length_of(arrays, array) == length_of(arrays, first)
}

// The array that stands for all with the same index; past them all the number itself.
fn same_of(arrays: &[FlatArray], array: u32) -> u32
    ensures { result ≡ same_of arrays.now array }
{
    match arrays.get(array as usize) {
        Some(found) => found.same,
        None => array,
    }
}

// How many cells an array has; 1 past them all.
fn length_of(arrays: &[FlatArray], array: u32) -> u32
    ensures { result ≡ flat_length arrays.now array }
{
    match arrays.get(array as usize) {
        Some(found) => found.length,
        None => 1,
    }
}

// The slot of the array's Index.
fn index_slot(fields: u32, instrs: &[Instr], array: u32) -> u32
    requires { fields + length instrs.now < 2 ^ 32 }
    ensures { result ≡ index_slot instrs.now fields array }
{
    let mut slot = fields;
    for instr in instrs {
        if is_index(*instr, array) {
            return slot;
        }
        slot += 1;
    }
    slot
}

// Whether an instruction is the array's Index.
fn is_index(instr: Instr, array: u32) -> bool
    ensures { result ≡ is_index instr array }
{
    match instr {
        Instr::Index(a, _) => a == array,
        _ => false,
    }
}

/// The depth of a group's codelet, where each instruction has such a codelet and each codelet such a depth.
pub(crate) fn depth_of(spots: &[Spot], classes: &[u32], depths: &[u32], group: u32) -> u32
    ensures { IsDepthAt spots.now classes.now depths.now group result }
{
    for number in 0..spots.len() {
        if spots[number] == Spot::Group(group) {
            return at(depths, at(classes, number) as usize);
        }
    }
    0
}

// The number at a place; 0 past them all.
fn at(numbers: &[u32], place: usize) -> u32
    ensures { result ≡ slice_index numbers.now place }
{
    numbers.get(place).copied().unwrap_or(0)
}
