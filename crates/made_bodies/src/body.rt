//! One made body: its source, its lines and its instructions on the same packets.
ghost use Rattle.std.specs.Prelude.{◌≡◌, ◌<◌, ◌≤◌, ◌^◌, length, map, slice_index, IfOk};
ghost use Rattle.domino_tree.specs.Count.{count_of};
ghost use Rattle.domino_tree.specs.Value.{names_of, cell_counts};
ghost use Rattle.domino_names.specs.Infos.{array_of};

use crate::cells::started;
use crate::lines::run_lines;
use crate::maker::{made_text, next};
use crate::slots::run_flat;
use crate::trouble::Trouble;
use branch_removal::remove_branches;
use code_forms::{FlatCode, GuardCode, Instr};
use domino_check::{ArrayInfo, Checked, check};
use domino_eval::Bench;
use domino_syntax::read_program;
use sqlite_items::Items;
use ssa_flatten::flatten;
use std::alloc::Global;

/// How many packets each body is run on.
const PACKETS: u32 = 4;

/// A packet's fields.
type Fields = [i32; 4];

/// What the runs of a body showed, so that it is known that they show something.
#[derive(Clone, Copy)]
pub struct Shown {
    /// In how many runs an array that stands in the body wasn't touched.
    pub untouched: u32,
    /// How many instructions are hashes.
    pub hashes: u32,
}

/// Runs the body of this seed, on one packet after another.
pub fn run_body(alloc: Global, seed: u64) -> Result<Shown, Trouble> {
    let text = made_text(alloc, seed)?;
    let checked = checked_of(alloc, text.as_str())?;
    let code = remove_branches(alloc, &checked)?;
    let Ok(flat) = flatten(alloc, &code) else {
        return Err(Trouble::Refused);
    };
    let untouched = compare(alloc, &checked, &code, &flat, seed)?;
    let hashes = hashes_in(flat.instrs.as_slice());
    Ok(Shown { untouched, hashes })
}

// The checked program of a text.
fn checked_of(alloc: Global, text: &str) -> Result<Checked, Trouble>
    ensures { IfOk result (λ checked. count_of checked < 2 ^ 32) }
{
    let Ok(program) = read_program(alloc, text.as_bytes()) else {
        return Err(Trouble::Refused);
    };
    match check(alloc, program) {
        Ok(checked) => Ok(checked),
        Err(_) => Err(Trouble::Refused),
    }
}

// Runs all three on the same packets. Says in how many runs an array that stands in the body wasn't touched.
fn compare(
    alloc: Global,
    checked: &Checked,
    code: &GuardCode,
    flat: &FlatCode,
    seed: u64,
) -> Result<u32, Trouble> {
    let mut bench = Bench::new(alloc, checked)?;
    let mut by_lines = started(alloc, checked.arrays())?;
    let mut by_slots = started(alloc, checked.arrays())?;
    let mut state = seed;
    let mut untouched: u32 = 0;
    for _ in 0..PACKETS {
        let header = header(&mut state);
        let mut fields = header;
        let set = u32::from(bench.packet(&mut fields));
        let mut line_fields = header;
        let line_set = run_lines(alloc, code, &mut line_fields, &mut by_lines)?;
        let mut slot_fields = header;
        let slot_set = run_flat(alloc, flat, &mut slot_fields, &mut by_slots)?;
        let as_lines = line_set == set && line_fields == fields;
        let as_slots = slot_set == set && slot_fields == fields;
        if !(as_lines && as_slots && has_both(&bench, checked, &by_lines, &by_slots)) {
            return Err(Trouble::Differs);
        }
        untouched = untouched.saturating_add(u32::from(set != loaded(flat)));
    }
    Ok(untouched)
}

// Words of a packet: some near 0, some of any size.
fn header(state: &mut u64) -> Fields {
    let mut fields = [0; 4];
    for field in fields.iter_mut() {
        *field = word(next(state));
    }
    fields
}

fn word(number: u32) -> i32 {
    let large = i32::try_from(number).unwrap_or(i32::MAX);
    match number % 4 {
        0 => large,
        1 => large.wrapping_neg(),
        _ => (number / 4 % 7) as i32 - 3,
    }
}

// Whether the bench has the cells of both.
fn has_both(
    bench: &Bench<'_>,
    checked: &Checked,
    by_lines: &[Items<i32>],
    by_slots: &[Items<i32>],
) -> bool
    requires { bench.now.program ≡ checked.now }
{
    let infos = checked.arrays();
    has_cells(bench, infos, by_lines) && has_cells(bench, infos, by_slots)
}

// Whether the bench has these cells.
fn has_cells(bench: &Bench<'_>, infos: &[ArrayInfo], cells: &[Items<i32>]) -> bool
    requires few { length infos.now ≤ 16 }
    requires declared { (names_of bench.now.program).arrays ≡ map array_of infos.now }
{
    if cells.len() != infos.len() {
        return false;
    }
    for (array, info) in infos.iter().enumerate() {
        if !has_row(bench, array as u32, info.length, cells[array].as_slice()) {
            return false;
        }
    }
    true
}

// Whether the bench has these cells in an array.
fn has_row(bench: &Bench<'_>, array: u32, count: u32, row: &[i32]) -> bool
    requires array { array < length (names_of bench.now.program).arrays }
    requires declared { slice_index (cell_counts (names_of bench.now.program)) array ≡ count }
{
    if row.len() != count as usize {
        return false;
    }
    for i in 0..count {
        if bench.cell(array, i) != row[i as usize] {
            return false;
        }
    }
    true
}

// The set of the arrays that stand in the body.
fn loaded(flat: &FlatCode) -> u32 {
    let mut set = 0;
    let mut bit: u32 = 1;
    for array in flat.arrays.as_slice() {
        if !array.touched.is_empty() {
            set |= bit;
        }
        bit = bit.wrapping_mul(2);
    }
    set
}

fn hashes_in(instrs: &[Instr]) -> u32 {
    let mut count: u32 = 0;
    for instr in instrs {
        count = count.saturating_add(u32::from(matches!(instr, Instr::Hash(..))));
    }
    count
}
