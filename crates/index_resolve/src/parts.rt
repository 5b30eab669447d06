//! The one call of the pass.
ghost use Rattle.std.specs.Prelude.{◌≡◌, ◌<◌, ◌+◌, ◌*◌, ◌^◌, IfOk, length};
ghost use Rattle.code_forms.specs.Staged.{IsStaged};
ghost use Rattle.code_forms.specs.StagedMeaning.{PlacesAreIndexes};
ghost use Rattle.index_resolve.specs.Clean.{clean_slots};
ghost use Rattle.index_resolve.specs.HeaderSteps.{header_steps};
ghost use Rattle.index_resolve.specs.Places.{HasPlaces, NoneTouched};
ghost use Rattle.index_resolve.specs.Resolve.{IsPacked, IsResolved, IsMade, AreMade, ArePartsOf, AreCodelets};

use crate::clean::clean_slots;
use crate::groups::{arrays_of, can_shard, depth_of};
use crate::header::header_steps;
use crate::order::order_of;
use code_forms::{FlatCode, Layout, StagedCode, StagedGroup, StagedParts};
use code_graph::codelets;
use mp5_words::NoMemory;
use sqlite_items::Items;
use std::alloc::{AllocError, Global};

/// Flat code in the parts of its layout, with what a header alone tells of it. A header has its place at a group where
/// some array of it is touched under a guard that may be open; then the place of a sharded group is the unit that the
/// Index of each of its arrays names, whatever stands in the cells. A header without a place at a group touches no
/// array of it. The code is valid. It takes time in proportion to the code, times the parts.
pub fn resolve(alloc: Global, code: &FlatCode, layout: &Layout) -> Result<StagedCode, NoMemory>
    requires { IsPacked code.now layout.now }
    ensures parts { IfOk result (λ s. IsResolved code.now layout.now s) }
    ensures staged { IfOk result (λ s. IsStaged s) }
    ensures places { IfOk result (λ s. HasPlaces s) }
    ensures untouched { IfOk result (λ s. NoneTouched s) }
    ensures indexes { IfOk result (λ s. PlacesAreIndexes s) }
{
    let parts = parts_of(alloc, code, layout)?;
    StagedCode::new(alloc, code, parts)
}

// The parts of code in a layout.
fn parts_of(alloc: Global, code: &FlatCode, layout: &Layout) -> Result<StagedParts, NoMemory>
    ensures parts { IfOk result (λ p. ArePartsOf code.now layout.now p) }
    ensures header { IfOk result (λ p. p.header ≡ header_steps
        (clean_slots code.now.fields code.now.arrays code.now.instrs)
        code.now.fields code.now.instrs) }
{
    let instrs = code.instrs.as_slice();
    let count = 2 * layout.arrays.len() as u32 + 1;
    let clean = clean_slots(alloc, code)?;
    let order = order_of(alloc, layout.spot.as_slice(), instrs, count)?;
    let groups = groups_of(alloc, code, layout, &clean)?;
    let header = header_steps(alloc, &clean, code.fields, instrs)?;
    Ok(StagedParts {
        order: Items::from_vec(order.numbers),
        ends: Items::from_vec(order.ends),
        groups,
        header,
        stages: layout.stages,
    })
}

// The groups of a layout, where these values are clean.
fn groups_of(
    alloc: Global,
    code: &FlatCode,
    layout: &Layout,
    clean: &[bool],
) -> Result<Items<StagedGroup>, NoMemory>
    ensures { IfOk result (λ groups. AreMade code.now layout.now clean.now groups) }
{
    let codelets = codelets(alloc, code)?;
    let groups = made_groups(alloc, code, layout, clean, codelets.of.as_slice())?;
    Ok(groups)
}

// The groups, where each instruction has such a codelet.
fn made_groups(
    alloc: Global,
    code: &FlatCode,
    layout: &Layout,
    clean: &[bool],
    classes: &[u32],
) -> Result<Items<StagedGroup>, AllocError>
    requires { AreCodelets code.now classes.now }
    ensures { IfOk result (λ groups. AreMade code.now layout.now clean.now groups) }
{
    let mut groups = Items::new(alloc);
    for number in 0..layout.arrays.len() {
        groups.push(group(alloc, code, layout, clean, classes, number as u32)?)?;
    }
    Ok(groups)
}

// A group by its number.
fn group(
    alloc: Global,
    code: &FlatCode,
    layout: &Layout,
    clean: &[bool],
    classes: &[u32],
    number: u32,
) -> Result<StagedGroup, AllocError>
    requires { number < length layout.now.arrays }
    ensures { IfOk result (λ g. IsMade code.now layout.now clean.now classes.now number g) }
{
    let arrays = arrays_of(alloc, layout.arrays.as_slice()[number as usize])?;
    let sharded = can_shard(code, clean, &arrays);
    let depth = depth_of(
        layout.spot.as_slice(),
        classes,
        layout.depth.as_slice(),
        number,
    );
    Ok(StagedGroup {
        arrays: Items::from_vec(arrays),
        sharded,
        depth,
    })
}
