//! Guarded lines, run one after another.

use crate::cells::{load, place_of, store, word_at};
use code_forms::{GuardCode, GuardExpr, GuardLine};
use mp5_words::{apply1, apply2, hash};
use sqlite_items::Items;
use std::alloc::{AllocError, Global};

/// What is known of an array that a line stood in: its place, its latest word, and whether a guard was 1 there.
#[derive(Clone, Copy)]
struct Copied {
    place: usize,
    word: i32,
    touched: bool,
}

/// Runs the lines on the fields and the cells. Gives the set of the arrays that they touched, bit `a` for array
/// `a`.
pub fn run_lines(
    alloc: Global,
    code: &GuardCode,
    fields: &mut [i32],
    cells: &mut [Items<i32>],
) -> Result<u32, AllocError> {
    let mut copies = Vec::new(alloc);
    for _ in code.arrays.as_slice() {
        copies.push(None)?;
    }
    let lines = code.lines.as_slice();
    let mut guards = vec![in alloc; false; lines.len().saturating_mul(2).saturating_add(1)]?;
    set_guard(&mut guards, 0, true);
    for line in lines {
        run_line(code, line, fields, cells, &mut copies, &mut guards);
    }
    Ok(write_back(&copies, cells))
}

fn run_line(
    code: &GuardCode,
    line: &GuardLine,
    fields: &mut [i32],
    cells: &[Items<i32>],
    copies: &mut [Option<Copied>],
    guards: &mut [bool],
) {
    match line {
        GuardLine::Test {
            cond,
            under,
            yes,
            no,
        } => {
            let on = guard(guards, *under);
            touch_all(code, cond, on, fields, cells, copies);
            let holds = value(cond, fields, copies) != 0;
            set_guard(guards, *yes, on && holds);
            set_guard(guards, *no, on && !holds);
        }
        GuardLine::SetField {
            field,
            guard: under,
            value: right,
        } => {
            let on = guard(guards, *under);
            touch_all(code, right, on, fields, cells, copies);
            let word = value(right, fields, copies);
            set_field(fields, *field as usize, on, word);
        }
        GuardLine::SetCell {
            array,
            guard: under,
            value: right,
        } => {
            let on = guard(guards, *under);
            touch(code, *array as usize, on, fields, cells, copies);
            touch_all(code, right, on, fields, cells, copies);
            let word = value(right, fields, copies);
            set_copy(copies, *array as usize, on, word);
        }
    }
}

// A guard by its number; one that isn't made is 0.
fn guard(guards: &[bool], number: u32) -> bool {
    guards.get(number as usize).copied().unwrap_or(false)
}

fn set_guard(guards: &mut [bool], number: u32, on: bool) {
    if (number as usize) < guards.len() {
        guards[number as usize] = on;
    }
}

fn set_field(fields: &mut [i32], field: usize, on: bool, word: i32) {
    if on && field < fields.len() {
        fields[field] = word;
    }
}

fn set_copy(copies: &mut [Option<Copied>], array: usize, on: bool, word: i32) {
    if !on || copies.len() <= array {
        return;
    }
    if let Some(copied) = copies[array] {
        copies[array] = Some(Copied { word, ..copied });
    }
}

// Each array in an expression is touched, where the guard is 1.
fn touch_all(
    code: &GuardCode,
    expr: &GuardExpr,
    on: bool,
    fields: &[i32],
    cells: &[Items<i32>],
    copies: &mut [Option<Copied>],
) {
    match expr {
        GuardExpr::Number(_) | GuardExpr::Field(_) => (),
        GuardExpr::Cell(a) => touch(code, *a as usize, on, fields, cells, copies),
        GuardExpr::One(_, a) => touch_all(code, a.get(), on, fields, cells, copies),
        GuardExpr::Two(_, a, b) => {
            touch_all(code, a.get(), on, fields, cells, copies);
            touch_all(code, b.get(), on, fields, cells, copies);
        }
        GuardExpr::Pick(c, a, b) => {
            touch_all(code, c.get(), on, fields, cells, copies);
            touch_all(code, a.get(), on, fields, cells, copies);
            touch_all(code, b.get(), on, fields, cells, copies);
        }
        GuardExpr::Hash(_, args) => {
            for arg in args.as_slice() {
                touch_all(code, arg, on, fields, cells, copies);
            }
        }
    }
}

// At its first touch an array's cell is copied, by its index on the fields as they are now.
fn touch(
    code: &GuardCode,
    array: usize,
    on: bool,
    fields: &[i32],
    cells: &[Items<i32>],
    copies: &mut [Option<Copied>],
) {
    if array < copies.len() {
        let copied = copies[array].unwrap_or(first_copy(code, array, fields, cells));
        copies[array] = Some(Copied {
            touched: copied.touched || on,
            ..copied
        });
    }
}

fn first_copy(code: &GuardCode, array: usize, fields: &[i32], cells: &[Items<i32>]) -> Copied {
    let place = match code.arrays.get(array) {
        Some(shape) => match &shape.index {
            Some(index) => place_of(value(index, fields, &[]), shape.length),
            None => 0,
        },
        None => 0,
    };
    Copied {
        place,
        word: load(cells, array, place),
        touched: false,
    }
}

// The word of an expression, on the fields and the copies.
fn value(expr: &GuardExpr, fields: &[i32], copies: &[Option<Copied>]) -> i32 {
    match expr {
        GuardExpr::Number(n) => *n,
        GuardExpr::Field(f) => word_at(fields, *f as usize),
        GuardExpr::Cell(a) => copied_word(copies, *a as usize),
        GuardExpr::One(op, a) => apply1(*op, value(a.get(), fields, copies)),
        GuardExpr::Two(op, a, b) => apply2(
            *op,
            value(a.get(), fields, copies),
            value(b.get(), fields, copies),
        ),
        GuardExpr::Pick(c, a, b) => {
            if value(c.get(), fields, copies) != 0 {
                value(a.get(), fields, copies)
            } else {
                value(b.get(), fields, copies)
            }
        }
        GuardExpr::Hash(kind, args) => {
            let mut words = [0; 3];
            for (i, arg) in args.as_slice().iter().enumerate() {
                let word = value(arg, fields, copies);
                if i < 3 {
                    words[i] = word;
                }
            }
            hash(*kind, words[0], words[1], words[2])
        }
    }
}

fn copied_word(copies: &[Option<Copied>], array: usize) -> i32 {
    match copies.get(array) {
        Some(Some(copied)) => copied.word,
        _ => 0,
    }
}

// The copies of touched arrays become their cells. Gives the set of these arrays.
fn write_back(copies: &[Option<Copied>], cells: &mut [Items<i32>]) -> u32 {
    let mut set = 0;
    let mut bit: u32 = 1;
    for (array, copied) in copies.iter().enumerate() {
        if write_copy(*copied, array, cells) {
            set |= bit;
        }
        bit = bit.wrapping_mul(2);
    }
    set
}

// Writes the copy of a touched array. Says whether it is touched.
fn write_copy(copied: Option<Copied>, array: usize, cells: &mut [Items<i32>]) -> bool {
    match copied {
        Some(copied) if copied.touched => {
            store(cells, array, copied.place, copied.word);
            true
        }
        _ => false,
    }
}
