//! The one call of the pass.
ghost use Rattle.std.specs.Prelude.{◌≡◌, ◌≢◌, ◌<◌, ◌≤◌, ◌++◌, ℕ, ℤ, List, None, IfOk, IfErr, OnOk, length, replicate};
ghost use Rattle.mp5_words.specs.Domain.{Loads, Mark, words, sources, marks};
ghost use Rattle.ssa_flatten.specs.Flattening.{slots_from, flat_start};
ghost use Rattle.ssa_flatten.specs.Flattened.{instrs_for, last_for, AreArraysFor, count_for, flat_end, Means, IsTooLarge};
ghost use Rattle.ssa_flatten.specs.Views.{held, view, store_of, stores_of};
ghost use Rattle.ssa_flatten.specs.declared.fault.FlatFault.TheVariants as fault;

use crate::arrays::{flat_arrays, untouched};
use crate::count::guard_count;
use crate::fault::FlatFault;
use crate::output::Output;
use crate::sofar::Sofar;
use code_forms::{ArrayShape, FlatCode, GuardCode, Instr, Operand};
use sqlite_items::Items;
use std::alloc::{AllocError, Global};

/// The most instructions that flat code may have.
pub const MAX_INSTRUCTIONS: u32 = 1024;

/// The flat code of guarded code: its lines as instructions, in text order, with each array indexed
/// and loaded before the line that touches it first, and stored once at the end. Code with more
/// than 1,024 instructions is refused, with their number. It takes time in proportion to the code,
/// but for what a table of 16 arrays costs.
pub fn flatten(alloc: Global, code: &GuardCode) -> Result<FlatCode, FlatFault>
    ensures fields { IfOk result (λ c. c.fields ≡ code.now.fields) }
    ensures instrs { IfOk result (λ c. c.instrs ≡ instrs_for code.now) }
    ensures last { IfOk result (λ c. c.last ≡ last_for code.now) }
    ensures arrays { IfOk result (λ c. AreArraysFor code.now c.arrays) }
    // On every header the last values, the guards, the indexes and what is stored are those of the
    // lines: for words, whatever is loaded, for the arrays behind each value, and for what the
    // header alone tells of it.
    ensures words { IfOk result (λ c. (lengths : ℕ → ℕ) (loads : Loads) →
        Means ℤ (words lengths loads) code.now c) }
    ensures sources { IfOk result (λ c. Means (List ℕ) sources code.now c) }
    ensures marks { IfOk result (λ c. (lengths : ℕ → ℕ) → Means Mark (marks lengths) code.now c) }
    ensures count { IfOk result (λ c. length c.instrs ≡ count_for code.now) }
    ensures few { IfOk result (λ c. count_for code.now ≤ 1024) }
    ensures refused { IfErr result (λ f. f ≢ fault.NoMemory → IsTooLarge code.now f) }
{
    let count = guard_count(code);
    if MAX_INSTRUCTIONS < count {
        return Err(FlatFault::TooLarge(count));
    }
    Ok(flat_code(alloc, code)?)
}

// The flat code of code that counts few enough instructions.
fn flat_code(alloc: Global, code: &GuardCode) -> Result<FlatCode, AllocError>
    requires { count_for code.now ≤ 1024 }
    ensures fields { IfOk result (λ c. c.fields ≡ code.now.fields) }
    ensures instrs { IfOk result (λ c. c.instrs ≡ instrs_for code.now) }
    ensures last { IfOk result (λ c. c.last ≡ last_for code.now) }
    ensures arrays { IfOk result (λ c. AreArraysFor code.now c.arrays) }
{
    let shapes = code.arrays.as_slice();
    let Sofar {
        out,
        fields,
        copies,
        guards: _,
        arrays: touches,
    } = code_of(alloc, code)?;
    let Output {
        mut instrs,
        next: _,
    } = out;
    push_stores(&mut instrs, &copies)?;
    let arrays = flat_arrays(alloc, shapes, &touches)?;
    Ok(FlatCode {
        fields: code.fields,
        arrays: Items::from_vec(arrays),
        instrs: Items::from_vec(instrs),
        last: Items::from_vec(fields),
    })
}

// The code of all lines, before the stores.
fn code_of(alloc: Global, code: &GuardCode) -> Result<Sofar, AllocError>
    requires { count_for code.now ≤ 1024 }
    ensures { IfOk result (λ s. held s ≡ view (flat_end code.now.fields code.now.arrays
        code.now.lines)) }
{
    let shapes = code.arrays.as_slice();
    let mut sofar = start(alloc, code.fields, shapes)?;
    for line in code.lines.as_slice() {
        sofar.line(alloc, code.fields, shapes, line)?;
    }
    Ok(sofar)
}

// The code before the first line.
fn start(alloc: Global, header: u32, shapes: &[ArrayShape]) -> Result<Sofar, AllocError>
    ensures { IfOk result (λ s. held s ≡ view (flat_start header shapes.now)) }
{
    let fields = header_slots(alloc, header)?;
    let copies = no_copies(alloc, shapes.len())?;
    let mut guards = Vec::new(alloc);
    guards.push(Operand::Number(1))?;
    let arrays = untouched(alloc, shapes.len())?;
    let out = Output {
        instrs: Vec::new(alloc),
        next: header,
    };
    Ok(Sofar {
        out,
        fields,
        copies,
        guards,
        arrays,
    })
}

// No copy of so many arrays.
fn no_copies(alloc: Global, count: usize) -> Result<Vec<Option<Operand>>, AllocError>
    ensures { IfOk result (λ copies. copies.items ≡ replicate count None) }
{
    let mut copies = Vec::with_capacity(alloc, count)?;
    for _ in 0..count {
        copies.push(None)?;
    }
    Ok(copies)
}

// The slots of the header.
fn header_slots(alloc: Global, header: u32) -> Result<Vec<Operand>, AllocError>
    ensures { IfOk result (λ slots. slots.items ≡ slots_from 0 header) }
{
    let mut slots = Vec::new(alloc);
    for k in 0..header {
        slots.push(Operand::Slot(k))?;
    }
    Ok(slots)
}

// Adds one Store for each loaded array, of its last copy, in order of declaration.
fn push_stores(instrs: &mut Vec<Instr>, copies: &[Option<Operand>]) -> Result<(), AllocError>
    requires { length copies.now ≤ 16 }
    ensures { OnOk result (instrs.new.items ≡ instrs.old.items ++ stores_of 0 copies.now) }
{
    for (array, word) in copies.iter().enumerate() {
        push_store(instrs, array as u32, *word)?;
    }
    Ok(())
}

// Adds a Store of an array, where it is loaded.
fn push_store(instrs: &mut Vec<Instr>, array: u32, word: Option<Operand>) -> Result<(), AllocError>
    ensures { OnOk result (instrs.new.items ≡ instrs.old.items ++ store_of array word) }
{
    match word {
        Some(word) => {
            instrs.push(Instr::Store(array, word))?;
            Ok(())
        }
        None => Ok(()),
    }
}
