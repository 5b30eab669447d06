//! Which groups of a program's arrays are sharded, and the units of a group.
ghost use Rattle.std.specs.Prelude.{◌≡◌, ◌↔◌, [], IsTrue, IfOk, None};
ghost use Rattle.std.specs.List.{slice_index_or};
ghost use Rattle.std.specs.Option.{option_copied};
ghost use Rattle.domino_check.specs.Indexes.{index_of};
ghost use Rattle.domino_check.specs.Numbering.{accesses};
ghost use Rattle.domino_check.specs.SourceGroups.{IsSharded, HasUnits, index_sources, cells_of};
ghost use Rattle.source_rows.specs.Opened.{cells_in};
ghost use Rattle.source_rows.specs.Shards.{AreClean, AreAlike, AllLike, AllAlike, HasLength};

use crate::members::is_of;
use crate::sources::walk;
use crate::trees::same_index;
use crate::values::Copied;
use dependence::ArrayGroups;
use domino_check::{ArrayInfo, Checked, CheckedExpr};
use mp5_words::NoMemory;
use std::alloc::Global;

/// Whether a group is sharded: no array stands behind an index of its arrays, and these have one index, as a tree, and
/// one length.
pub fn is_sharded(
    alloc: Global,
    checked: &Checked,
    groups: &ArrayGroups,
    group: u32,
) -> Result<bool, NoMemory>
    ensures { IfOk result (λ sharded. IsTrue sharded ↔ IsSharded checked.now groups.now.of group) }
{
    let walked = walk(alloc, checked)?;
    let clean = are_clean(&walked.copies, &groups.of, group);
    Ok(clean && all_alike(checked, &groups.of, group))
}

/// How many units a group has: a sharded one as many as each of its arrays has cells, any other one alone.
pub fn units(
    alloc: Global,
    checked: &Checked,
    groups: &ArrayGroups,
    group: u32,
) -> Result<u32, NoMemory>
    ensures { IfOk result (HasUnits checked.now groups.now.of group) }
{
    if is_sharded(alloc, checked, groups, group)? {
        Ok(one_length(checked, &groups.of, group))
    } else {
        Ok(1)
    }
}

// Whether no array stands behind an index of the group's arrays.
fn are_clean(copies: &[Option<Copied>], of: &[Option<u32>; 16], group: u32) -> bool
    ensures { IsTrue result ↔ AreClean (λ a. slice_index_or copies.now a None) of.now group }
{
    for a in 0..16 {
        if is_of(of, group, a) && !is_clean(copies, a) {
            return false;
        }
    }
    true
}

// Whether no array stands behind an array's index.
fn is_clean(copies: &[Option<Copied>], a: usize) -> bool
    ensures { IsTrue result ↔ (index_sources (slice_index_or copies.now a None) ≡ []) }
{
    if copies.len() <= a {
        return true;
    }
    match &copies[a] {
        Some(copied) => copied.index.is_empty(),
        None => true,
    }
}

// Whether the group's arrays are alike.
fn all_alike(checked: &Checked, of: &[Option<u32>; 16], group: u32) -> bool
    ensures { IsTrue result ↔ AllAlike checked.now of.now group }
{
    for a in 0..16 {
        if is_of(of, group, a) && !all_like(checked, of, group, a) {
            return false;
        }
    }
    true
}

// Whether each array of the group is like this one.
fn all_like(checked: &Checked, of: &[Option<u32>; 16], group: u32, a: usize) -> bool
    ensures { IsTrue result ↔ AllLike checked.now of.now group a }
{
    for b in 0..16 {
        if is_of(of, group, b) && !are_alike(checked, a, b) {
            return false;
        }
    }
    true
}

// Whether two arrays have one index and one length.
fn are_alike(checked: &Checked, a: usize, b: usize) -> bool
    ensures { IsTrue result ↔ AreAlike checked.now a b }
{
    same_index(index_at(checked, a), index_at(checked, b))
        && length_at(checked, a) == length_at(checked, b)
}

// The index of an array; none where it isn't touched, or past them all.
fn index_at(checked: &Checked, a: usize) -> Option<&CheckedExpr>
    ensures { option_copied result ≡ index_of (accesses checked.now) a }
{
    let _program = checked.program();
    if a < checked.arrays().len() {
        checked.index(a as u32)
    } else {
        None
    }
}

// How many cells an array has; 1 past them all.
fn length_at(checked: &Checked, a: usize) -> u32
    ensures { result ≡ cells_of checked.now a }
{
    length_in(checked.arrays(), a)
}

// The same of arrays as they are declared.
fn length_in(infos: &[ArrayInfo], a: usize) -> u32
    ensures { result ≡ cells_in infos.now a }
{
    if a < infos.len() { infos[a].length } else { 1 }
}

// The length of each array of a group, if they have one.
fn one_length(checked: &Checked, of: &[Option<u32>; 16], group: u32) -> u32
    ensures { AllAlike checked.now of.now group → HasLength checked.now of.now group result }
{
    for a in 0..16 {
        if is_of(of, group, a) {
            return length_at(checked, a);
        }
    }
    1
}
