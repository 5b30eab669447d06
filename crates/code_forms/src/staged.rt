//! Flat code in the parts in which it runs.
ghost use Rattle.std.specs.Prelude.{◌≡◌, ◌<◌, ◌≤◌, length, IfOk};
ghost use Rattle.code_forms.specs.Staged.{slot_count, group_at, unit_count, in_parts, IsStaged, IsGroup, HasSizes};
ghost use Rattle.code_forms.specs.StagedMeaning.{PlacesAreIndexes, start_of};
ghost use Rattle.code_forms.specs.FlatMeaning.{flat_length};

use crate::flat::{FlatArray, FlatCode, Instr, Operand};
use crate::needed::{needed_of, place_slots};
use crate::parts::{HeaderStep, StagedGroup, StagedParts};
use crate::spot::Spot;
use crate::steps::steps_of;
use crate::table::table_of;
use mp5_words::NoMemory;
use sqlite_items::Items;
use std::alloc::{AllocError, Global};
use std::marker::Model;

/// Flat code in the parts in which it runs on an environment, a slice with a word for each slot. The fields of the
/// header stand in the first slots; instruction `i` writes slot `fields + i`. Contracts see it as plain data.
#[derive(Drop)]
pub struct StagedCode {
    pub(crate) fields: u32,
    pub(crate) arrays: Items<FlatArray>,
    pub(crate) instrs: Items<Instr>,
    pub(crate) last: Items<Operand>,
    pub(crate) parts: StagedParts,
    pub(crate) spots: Items<Spot>,
    pub(crate) steps: Items<HeaderStep>,
    pub(crate) needed: Items<HeaderStep>,
}

impl Model for StagedCode {
    ghost use Rattle.code_forms.specs.Staged.{Staged, staged_of};
    ghost use Rattle.code_forms.specs.Needed.{IsKept};

    ghost Value = { Staged };

    ghost view = { λ s. staged_of s.fields s.arrays s.instrs s.last s.parts };

    ghost invariant = { λ s.
        IsKept (staged_of s.fields s.arrays s.instrs s.last s.parts) s.spots s.steps s.needed };
}

impl StagedCode {
    /// Flat code in the parts in which it is to run. The pass that places the arrays calls this.
    pub fn new(alloc: Global, code: &FlatCode, parts: StagedParts) -> Result<StagedCode, NoMemory>
        requires staged { IsStaged (in_parts code.now parts) }
        requires places { PlacesAreIndexes (in_parts code.now parts) }
        ensures { IfOk result (λ staged. staged ≡ in_parts code.now parts) }
    {
        let spots = table_of(alloc, code, &parts)?;
        let flat = code.arrays.as_slice();
        let instrs = code.instrs.as_slice();
        let steps = steps_of(alloc, code.fields, instrs, parts.order.as_slice())?;
        let slots = place_slots(alloc, flat, parts.groups.as_slice(), spots.as_slice())?;
        let needed = needed_of(alloc, parts.header.as_slice(), slots)?;
        Ok(StagedCode {
            fields: code.fields,
            arrays: copy_of(alloc, flat)?,
            instrs: Items::from_slice(alloc, instrs)?,
            last: Items::from_slice(alloc, code.last.as_slice())?,
            parts,
            spots,
            steps,
            needed,
        })
    }

    /// How many fields the packet has: at most 32.
    pub fn fields(&self) -> u32
        ensures count { result ≡ self.now.fields }
        ensures few { self.now.fields ≤ 32 }
    {
        self.fields
    }

    /// How many groups of arrays there are: at most 16. Each has from 1 to 65,536 units.
    pub fn groups(&self) -> u32
        ensures count { result ≡ length self.now.groups }
        ensures few { length self.now.groups ≤ 16 }
        ensures sizes { HasSizes self.now }
    {
        self.parts.groups.len() as u32
    }

    /// How many words an environment has.
    pub fn slots(&self) -> u32
        ensures { result ≡ slot_count self.now }
    {
        self.fields + self.instrs.len() as u32
    }

    /// How many units a group has.
    pub fn units(&self, g: u32) -> u32
        requires { g < length self.now.groups }
        ensures { result ≡ unit_count self.now (group_at self.now g) }
    {
        let group = self.group(g);
        if group.sharded {
            self.length(group.arrays.as_slice()[0])
        } else {
            1
        }
    }

    /// How many instructions there are.
    pub fn instructions(&self) -> u32
        ensures { result ≡ length self.now.instrs }
    {
        self.instrs.len() as u32
    }

    /// How many stages the code takes.
    pub fn stages(&self) -> u32
        ensures { result ≡ self.now.stages }
    {
        self.parts.stages
    }

    /// How many codelets have to run before the group, one after another.
    pub fn depth(&self, g: u32) -> u32
        requires { g < length self.now.groups }
        ensures { result ≡ (group_at self.now g).depth }
    {
        self.group(g).depth
    }

    /// How many arrays there are, in groups or not: at most 16.
    pub fn array_count(&self) -> u32
        ensures count { result ≡ length self.now.arrays }
        ensures few { length self.now.arrays ≤ 16 }
    {
        self.arrays.len() as u32
    }

    /// How many cells an array has.
    pub fn length(&self, a: u32) -> u32
        requires { a < length self.now.arrays }
        ensures { result ≡ flat_length self.now.arrays a }
    {
        self.arrays.as_slice()[a as usize].length
    }

    /// The start value of a cell of an array.
    pub fn start(&self, a: u32, i: u32) -> i32
        requires array { a < length self.now.arrays }
        requires cell { i < flat_length self.now.arrays a }
        ensures { result ≡ start_of self.now.arrays a }
    {
        self.arrays.as_slice()[a as usize].start
    }

    // A group by its number.
    pub(crate) fn group(&self, g: u32) -> &StagedGroup
        requires { g < length self.now.groups }
        ensures group { result.now ≡ group_at self.now g }
        ensures laws { IsGroup self.now g }
    {
        &self.parts.groups.as_slice()[g as usize]
    }
}

// The same arrays.
fn copy_of(alloc: Global, arrays: &[FlatArray]) -> Result<Items<FlatArray>, AllocError>
    ensures { IfOk result (λ copy. copy ≡ arrays.now) }
{
    let mut copy = Items::new(alloc);
    for array in arrays {
        copy.push(FlatArray {
            length: array.length,
            start: array.start,
            same: array.same,
            touched: Items::from_slice(alloc, array.touched.as_slice())?,
            copies: Items::from_slice(alloc, array.copies.as_slice())?,
        })?;
    }
    Ok(copy)
}
