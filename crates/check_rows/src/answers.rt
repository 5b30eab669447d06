//! The answer to each question.

use domino_check::{CheckFault, What, check};
use domino_eval::Bench;
use domino_syntax::read_program;
use std::alloc::{AllocError, Global};
use table_rows::{Row, Trouble, checked_of, text_of};

/// What is found for the row's question.
pub fn answer(alloc: Global, row: &Row<'_>) -> Result<String, Trouble> {
    match row.word {
        "check" => told_check(alloc, row),
        "touched" => told_touched(alloc, row),
        _ => Err(Trouble::Row),
    }
}

// `ok`, or the number of the fault with what it tells.
fn told_check(alloc: Global, row: &Row<'_>) -> Result<String, Trouble> {
    let text = text_of(alloc, row)?;
    let Ok(program) = read_program(alloc, text.as_bytes()) else {
        return Err(Trouble::Row);
    };
    match check(alloc, program) {
        Ok(_) => Ok(String::from_str(alloc, "ok")?),
        Err(CheckFault::NoMemory) => Err(Trouble::NoMemory),
        Err(fault) => Ok(told_fault(alloc, &fault)?),
    }
}

fn told_fault(alloc: Global, fault: &CheckFault) -> Result<String, AllocError> {
    match fault {
        CheckFault::Twice(name) => named(alloc, 5, name.bytes()),
        CheckFault::Unknown(name) => named(alloc, 6, name.bytes()),
        CheckFault::WrongKind(name) => named(alloc, 7, name.bytes()),
        CheckFault::Arity(name) => named(alloc, 8, name.bytes()),
        CheckFault::BadLength(name, length) => {
            let mut told = named(alloc, 9, name.bytes())?;
            write!(told, " {length}")?;
            Ok(told)
        }
        CheckFault::TooMany(what, count) => {
            let what = counted(*what);
            format!(in alloc; "10 {what} {count}")
        }
        CheckFault::IndexDiffers(name) => named(alloc, 11, name.bytes()),
        CheckFault::IndexMoves(name) => named(alloc, 12, name.bytes()),
        CheckFault::NoMemory => format!(in alloc; "memory"),
    }
}

fn counted(what: What) -> &'static str {
    match what {
        What::Defines => "defines",
        What::Fields => "fields",
        What::Arrays => "arrays",
        What::Cells => "cells",
    }
}

fn named(alloc: Global, number: u32, name: &[u8]) -> Result<String, AllocError> {
    let mut told = format!(in alloc; "{number} ")?;
    for byte in name {
        told.push(char::from(*byte))?;
    }
    Ok(told)
}

/// The letters of the first four arrays.
const LETTERS: [&str; 4] = ["a", "b", "c", "d"];

// Which of the first four arrays are touched.
fn told_touched(alloc: Global, row: &Row<'_>) -> Result<String, Trouble> {
    let checked = checked_of(alloc, row)?;
    let mut bench = Bench::new(alloc, &checked)?;
    let mut fields = row.header;
    let touched = bench.packet(&mut fields);
    Ok(told_set(alloc, touched)?)
}

// The letters of a set of arrays, `none` where it is empty.
fn told_set(alloc: Global, set: u16) -> Result<String, AllocError> {
    let mut told = String::new(alloc);
    for (bit, letter) in LETTERS.iter().enumerate() {
        if set >> bit & 1 == 1 {
            if !told.is_empty() {
                told.push(' ')?;
            }
            told.push_str(letter)?;
        }
    }
    if told.is_empty() {
        told.push_str("none")?;
    }
    Ok(told)
}
