//! The cells of arrays, a list of words for each.

use domino_check::ArrayInfo;
use mp5_words::cell_of;
use sqlite_items::Items;
use std::alloc::{AllocError, Global};

/// Each cell at its start value.
pub fn started(alloc: Global, infos: &[ArrayInfo]) -> Result<Vec<Items<i32>>, AllocError> {
    let mut cells = Vec::new(alloc);
    for info in infos {
        cells.push(Items::from_vec(vec![in alloc; info.start; info.length as usize]?))?;
    }
    Ok(cells)
}

/// The place of the cell that an index names, in an array of so many cells; 0 where no array has as many.
pub fn place_of(index: i32, length: u32) -> usize {
    if 1 <= length && length <= 65_536 {
        cell_of(index, length) as usize
    } else {
        0
    }
}

/// The word of a cell; 0 where there is none.
pub fn load(cells: &[Items<i32>], array: usize, place: usize) -> i32 {
    match cells.get(array) {
        Some(row) => row.get(place).copied().unwrap_or(0),
        None => 0,
    }
}

/// Writes a word to a cell, where there is one.
pub fn store(cells: &mut [Items<i32>], array: usize, place: usize, word: i32) {
    if array < cells.len() {
        let row = &mut cells[array];
        if place < row.len() {
            row.set(place, word);
        }
    }
}

/// A word of a list; 0 where there is none.
pub fn word_at(words: &[i32], at: usize) -> i32 {
    words.get(at).copied().unwrap_or(0)
}
