//! Where the arrays of staged code stand.
ghost use Rattle.std.specs.Prelude.{◌≡◌, ◌<◌, ◌≤◌, ◌&&◌, pos};
ghost use Rattle.mp5_words.specs.Words.{flag, cell};
ghost use Rattle.mp5_words.specs.Cells.{picked, natural, word_at};
ghost use Rattle.code_forms.specs.Staged.{operand_word};
ghost use Rattle.code_forms.specs.Spots.{spot_at, spot_cell, spot_value, AreLengths};

use crate::flat::{Instr, Operand};
use mp5_words::{apply1, apply2, cell_of, hash};

/// Where an array stands: its length, the slot of its Index, how many cells stand before it in its unit, whether
/// that unit has one cell of it alone, and what its Store writes.
#[derive(Clone, Copy, Debug)]
pub(crate) struct Spot {
    pub length: u32,
    pub index: u32,
    pub start: u32,
    pub sharded: bool,
    pub stored: Operand,
}

/// Where an array stands that isn't there.
const NOWHERE: Spot = Spot {
    length: 1,
    index: 0,
    start: 0,
    sharded: false,
    stored: Operand::Number(0),
};

/// The spot of an array.
pub(crate) fn spot_of(spots: &[Spot], array: u32) -> Spot
    ensures { result ≡ spot_at spots.now array }
{
    spots.get(array as usize).copied().unwrap_or(NOWHERE)
}

/// The word in a slot; 0 past them all.
pub(crate) fn word_at(words: &[i32], slot: usize) -> i32
    ensures { result ≡ word_at words.now slot }
{
    words.get(slot).copied().unwrap_or(0)
}

/// What an operand is on words in slots.
pub(crate) fn operand_word(env: &[i32], operand: Operand) -> i32
    ensures { result ≡ operand_word env.now operand }
{
    match operand {
        Operand::Slot(slot) => word_at(env, slot as usize),
        Operand::Number(n) => n,
    }
}

/// Which cell of a unit is an array's, where its Index stands in its slot.
pub(crate) fn cell_at(spot: Spot, env: &[i32]) -> usize
    ensures { result ≡ spot_cell spot env.now }
{
    let index = if spot.sharded {
        0
    } else {
        index_at(env, spot.index)
    };
    spot.start as usize + index as usize
}

/// The index in a slot; 0 where there is none.
pub(crate) fn index_at(env: &[i32], slot: u32) -> u32
    ensures value { result ≡ natural (word_at env.now slot) }
    ensures bound { result < 2147483648 }
{
    word_at(env, slot as usize).max(0).unsigned_abs()
}

/// The word that an instruction gives on words in slots and the cells of a unit.
#[inline(always)]
pub(crate) fn value_of(instr: &Instr, spots: &[Spot], env: &[i32], cells: &[i32]) -> i32
    requires { AreLengths spots.now }
    ensures { result ≡ spot_value spots.now cells.now env.now instr.now }
{
    match instr {
        Instr::One(op, a) => apply1(*op, operand_word(env, *a)),
        Instr::Two(op, a, b) => apply2(*op, operand_word(env, *a), operand_word(env, *b)),
        Instr::Pick(c, a, b) => pick(
            operand_word(env, *c),
            operand_word(env, *a),
            operand_word(env, *b),
        ),
        Instr::Hash(kind, a, b, c) => hash(
            *kind,
            operand_word(env, *a),
            operand_word(env, *b),
            operand_word(env, *c),
        ),
        Instr::Move(a) | Instr::Store(_, a) => operand_word(env, *a),
        Instr::Yes(guard, c) => both(operand_word(env, *guard) != 0, operand_word(env, *c) != 0),
        Instr::No(guard, c) => both(operand_word(env, *guard) != 0, operand_word(env, *c) == 0),
        Instr::Index(array, a) => index_of(operand_word(env, *a), spot_of(spots, *array)),
        Instr::Load(array) => word_at(cells, cell_at(spot_of(spots, *array), env)),
    }
}

// The first word where the condition isn't 0, else the second.
fn pick(c: i32, a: i32, b: i32) -> i32
    ensures { result ≡ picked c a b }
{
    if c != 0 { a } else { b }
}

// 1 where both hold, else 0.
fn both(a: bool, b: bool) -> i32
    ensures { result ≡ flag (a && b) }
{
    i32::from(a && b)
}

// A word reduced to the index of a cell.
fn index_of(word: i32, spot: Spot) -> i32
    requires least { 1 ≤ spot.length }
    requires most { spot.length ≤ 65536 }
    ensures { result ≡ pos (cell word spot.length) }
{
    cell_named(word, spot.length) as i32
}

// The cell that a word names. Most words are an index already, and aren't divided.
fn cell_named(word: i32, length: u32) -> u32
    requires least { 1 ≤ length }
    requires most { length ≤ 65536 }
    ensures value { result ≡ cell word length }
    ensures bound { result < length }
{
    match u32::try_from(word) {
        Ok(number) if number < length => number,
        _ => cell_of(word, length),
    }
}
