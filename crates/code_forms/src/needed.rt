//! The steps of the header run on which the places depend.
ghost use Rattle.std.specs.Prelude.{◌≡◌, ◌++◌, ℕ, List, flat_map, reverse, ◌∷◌, IfOk, OnOk};
ghost use Rattle.code_forms.specs.declared.parts.HeaderStep.{HeaderStep as Step};
ghost use Rattle.code_forms.specs.Staged.{operand_slots};
ghost use Rattle.code_forms.specs.Needed.{read_slots, guard_slots, group_slots, Follows, Leaves};

use crate::flat::{FlatArray, Instr, Operand};
use crate::parts::{HeaderStep, StagedGroup};
use crate::spot::{Spot, spot_of};
use sqlite_items::Items;
use std::alloc::{AllocError, Global};

/// The slots on which the places at these groups depend.
pub(crate) fn place_slots(
    alloc: Global,
    flat: &[FlatArray],
    groups: &[StagedGroup],
    spots: &[Spot],
) -> Result<Items<u32>, AllocError>
    ensures { IfOk result (λ slots. slots ≡ flat_map (group_slots flat.now spots.now) groups.now) }
{
    let mut slots = Items::new(alloc);
    for group in groups {
        add_group(&mut slots, flat, spots, group)?;
    }
    Ok(slots)
}

/// Those of these steps on which the words in such slots depend, in order.
pub(crate) fn needed_of(
    alloc: Global,
    header: &[HeaderStep],
    slots: Items<u32>,
) -> Result<Items<HeaderStep>, AllocError>
    ensures { IfOk result (λ needed. Leaves slots needed header.now) }
{
    let mut live = Items::from_slice(alloc, slots.as_slice())?;
    let mut needed = Items::new(alloc);
    for k in (0..header.len()).rev() {
        put_before(&mut live, &mut needed, header[k])?;
    }
    in_reverse(alloc, needed.as_slice())
}

// Puts a step before those that are needed behind it, last one first, if it writes a live slot. What it reads is live
// then.
fn put_before(
    live: &mut Items<u32>,
    needed: &mut Items<HeaderStep>,
    step: HeaderStep,
) -> Result<(), AllocError>
    ensures { OnOk result ((asked : List ℕ) (all : List Step)
        → Follows asked live.old (reverse needed.old) all
        → Follows asked live.new (reverse needed.new) (step ∷ all)) }
{
    if live.as_slice().contains(&step.slot) {
        needed.push(step)?;
        add_reads(live, step.instr)?;
    }
    Ok(())
}

// The steps, last one first.
fn in_reverse(alloc: Global, steps: &[HeaderStep]) -> Result<Items<HeaderStep>, AllocError>
    ensures { IfOk result (λ turned. turned ≡ reverse steps.now) }
{
    let mut turned = Vec::from_slice(alloc, steps)?;
    turned.reverse();
    Ok(Items::from_vec(turned))
}

// Adds the slots on which the place at a group depends.
fn add_group(
    slots: &mut Items<u32>,
    flat: &[FlatArray],
    spots: &[Spot],
    group: &StagedGroup,
) -> Result<(), AllocError>
    ensures { OnOk result (slots.new ≡ slots.old ++ group_slots flat.now spots.now group.now) }
{
    let arrays = group.arrays.as_slice();
    for array in arrays {
        add_guards(slots, flat, *array)?;
    }
    if group.sharded {
        let first = arrays.first().copied().unwrap_or(0);
        slots.push(spot_of(spots, first).index)?;
    }
    Ok(())
}

// Adds the slots of the guards of an array.
fn add_guards(slots: &mut Items<u32>, flat: &[FlatArray], array: u32) -> Result<(), AllocError>
    ensures { OnOk result (slots.new ≡ slots.old ++ guard_slots flat.now array) }
{
    match flat.get(array as usize) {
        Some(found) => add_all(slots, found.touched.as_slice()),
        None => Ok(()),
    }
}

// Adds the slots of these operands.
fn add_all(slots: &mut Items<u32>, operands: &[Operand]) -> Result<(), AllocError>
    ensures { OnOk result (slots.new ≡ slots.old ++ flat_map operand_slots operands.now) }
{
    for operand in operands {
        add(slots, *operand)?;
    }
    Ok(())
}

// Adds the slot of an operand, if it has one.
fn add(slots: &mut Items<u32>, operand: Operand) -> Result<(), AllocError>
    ensures { OnOk result (slots.new ≡ slots.old ++ operand_slots operand) }
{
    match operand {
        Operand::Slot(slot) => slots.push(slot),
        Operand::Number(_) => Ok(()),
    }
}

// Adds the slots that an instruction reads in the header run.
fn add_reads(slots: &mut Items<u32>, instr: Instr) -> Result<(), AllocError>
    ensures { OnOk result (slots.new ≡ slots.old ++ read_slots instr) }
{
    match instr {
        Instr::One(_, a) | Instr::Move(a) | Instr::Index(_, a) | Instr::Store(_, a) => {
            add(slots, a)
        }
        Instr::Two(_, a, b) | Instr::Yes(a, b) | Instr::No(a, b) => {
            add(slots, a)?;
            add(slots, b)
        }
        Instr::Pick(a, b, c) | Instr::Hash(_, a, b, c) => {
            add(slots, a)?;
            add(slots, b)?;
            add(slots, c)
        }
        Instr::Load(_) => Ok(()),
    }
}
