//! What staged code has beside flat code.

use crate::flat::Instr;
use sqlite_items::Items;

/// A step of the header run: an instruction, and the slot that it writes.
#[derive(Clone, Copy, Debug, PartialEq, Eq)]
pub struct HeaderStep {
    pub instr: Instr,
    pub slot: u32,
}

/// A group of arrays that are served at one place.
#[derive(Debug, Drop)]
pub struct StagedGroup {
    /// Its arrays, in order of declaration.
    pub arrays: Items<u32>,
    /// Whether it has a unit for each index, with one cell of each of its arrays. Else it has one unit, with its
    /// arrays whole.
    pub sharded: bool,
    /// How many codelets have to run before it, one after another.
    pub depth: u32,
}

/// The parts in which flat code runs: block 0, group 0, block 1, group 1 and so on, and a last block.
#[derive(Debug, Drop)]
pub struct StagedParts {
    /// The numbers of the instructions, in the order in which they run.
    pub order: Items<u32>,
    /// For each part how many instructions have run at its end.
    pub ends: Items<u32>,
    pub groups: Items<StagedGroup>,
    /// What a header alone tells, one step after another.
    pub header: Items<HeaderStep>,
    /// How many stages the code takes.
    pub stages: u32,
}
