//! Flat code, run one instruction after another.

use crate::cells::{load, place_of, store, word_at};
use code_forms::{FlatCode, Instr, Operand};
use mp5_words::{apply1, apply2, hash};
use sqlite_items::Items;
use std::alloc::{AllocError, Global};

/// Runs the instructions on the fields and the cells. Gives the set of the arrays that they touched, bit `a` for
/// array `a`.
pub fn run_flat(
    alloc: Global,
    code: &FlatCode,
    fields: &mut [i32],
    cells: &mut [Items<i32>],
) -> Result<u32, AllocError> {
    let mut slots = Vec::new(alloc);
    for word in fields.iter() {
        slots.push(*word)?;
    }
    let mut places = vec![in alloc; 0; code.arrays.len()]?;
    for instr in code.instrs.as_slice() {
        let word = run_instr(code, *instr, &slots, &mut places, cells);
        slots.push(word)?;
    }
    for (field, last) in fields.iter_mut().zip(code.last.as_slice()) {
        *field = word_of(&slots, *last);
    }
    Ok(touched(code, &slots))
}

// The word that an instruction writes; a Store writes none, and stands for a 0.
fn run_instr(
    code: &FlatCode,
    instr: Instr,
    slots: &[i32],
    places: &mut [usize],
    cells: &mut [Items<i32>],
) -> i32 {
    match instr {
        Instr::One(op, a) => apply1(op, word_of(slots, a)),
        Instr::Two(op, a, b) => apply2(op, word_of(slots, a), word_of(slots, b)),
        Instr::Pick(c, a, b) => word_of(slots, if word_of(slots, c) != 0 { a } else { b }),
        Instr::Hash(kind, a, b, c) => {
            hash(
                kind,
                word_of(slots, a),
                word_of(slots, b),
                word_of(slots, c),
            )
        }
        Instr::Move(a) => word_of(slots, a),
        Instr::Yes(g, c) => i32::from(word_of(slots, g) != 0 && word_of(slots, c) != 0),
        Instr::No(g, c) => i32::from(word_of(slots, g) != 0 && word_of(slots, c) == 0),
        Instr::Index(array, index) => {
            let place = flat_place(code, array as usize, word_of(slots, index));
            set_place(places, array as usize, place);
            i32::try_from(place).unwrap_or(0)
        }
        Instr::Load(array) => load(cells, array as usize, place_at(places, array as usize)),
        Instr::Store(array, word) => {
            let place = place_at(places, array as usize);
            store(cells, array as usize, place, word_of(slots, word));
            0
        }
    }
}

fn word_of(slots: &[i32], operand: Operand) -> i32 {
    match operand {
        Operand::Slot(slot) => word_at(slots, slot as usize),
        Operand::Number(n) => n,
    }
}

fn flat_place(code: &FlatCode, array: usize, index: i32) -> usize {
    match code.arrays.get(array) {
        Some(array) => place_of(index, array.length),
        None => 0,
    }
}

fn place_at(places: &[usize], array: usize) -> usize {
    places.get(array).copied().unwrap_or(0)
}

fn set_place(places: &mut [usize], array: usize, place: usize) {
    if array < places.len() {
        places[array] = place;
    }
}

// The set of the arrays of which a guard isn't 0.
fn touched(code: &FlatCode, slots: &[i32]) -> u32 {
    let mut set = 0;
    let mut bit: u32 = 1;
    for array in code.arrays.as_slice() {
        if array
            .touched
            .as_slice()
            .iter()
            .any(|guard| word_of(slots, *guard) != 0)
        {
            set |= bit;
        }
        bit = bit.wrapping_mul(2);
    }
    set
}
