//! The answer to each question.
ghost use Rattle.std.specs.Prelude.{◌<◌, length};

use crate::passes::{flat_of, flattened, layout_of, lines_of, staged_of};
use crate::running::told_run;
use crate::tell::{tell_ends, tell_instrs, tell_lines};
use code_forms::{FlatCode, Spot, StagedCode};
use code_graph::codelets;
use flat_graph::{Reached, reached, reached_from};
use mp5_words::NoMemory;
use ssa_flatten::FlatFault;
use std::alloc::{AllocError, Global};
use table_rows::{Row, Trouble};

/// What the passes give for the row's question, `none` where that is nothing.
pub fn answer(alloc: Global, row: &Row<'_>) -> Result<String, Trouble> {
    let told = told(alloc, row)?;
    Ok(trimmed(alloc, &told)?)
}

// A text without the spaces around it, `none` where nothing is left.
fn trimmed(alloc: Global, told: &str) -> Result<String, AllocError> {
    let told = told.trim();
    String::from_str(alloc, if told.is_empty() { "none" } else { told })
}

// What the passes give for a question.
fn told(alloc: Global, row: &Row<'_>) -> Result<String, Trouble> {
    match row.word {
        "lines" => told_lines(alloc, row),
        "size" => told_size(alloc, row),
        "places" => told_places(alloc, row),
        "run" => told_packet(alloc, row),
        word => told_code(alloc, word, &flat_of(alloc, row)?),
    }
}

// The guarded lines.
fn told_lines(alloc: Global, row: &Row<'_>) -> Result<String, Trouble> {
    let code = lines_of(alloc, row)?;
    Ok(tell_lines(alloc, &code)?)
}

// What flat code shows for a question.
fn told_code(alloc: Global, word: &str, code: &FlatCode) -> Result<String, Trouble> {
    match word {
        "code" => Ok(tell_instrs(alloc, code)?),
        "ends" => Ok(tell_ends(alloc, code)?),
        "codelets" => Ok(told_codelets(alloc, code)?),
        "arrays" => Ok(told_arrays(alloc, code)?),
        "layout" => Ok(told_layout(alloc, code)?),
        "stages" => Ok(told_stages(alloc, code)?),
        _ => Err(Trouble::Row),
    }
}

// The places of the header.
fn told_places(alloc: Global, row: &Row<'_>) -> Result<String, Trouble> {
    let staged = staged(alloc, row)?;
    tell_places(alloc, &staged, &row.header)
}

// What the staged code does to the packet.
fn told_packet(alloc: Global, row: &Row<'_>) -> Result<String, Trouble> {
    let staged = staged(alloc, row)?;
    Ok(told_run(alloc, &staged, &row.header)?)
}

fn staged(alloc: Global, row: &Row<'_>) -> Result<StagedCode, Trouble> {
    let code = flat_of(alloc, row)?;
    Ok(staged_of(alloc, &code)?)
}

// How many instructions there are, or that they are too many.
fn told_size(alloc: Global, row: &Row<'_>) -> Result<String, Trouble> {
    match flattened(alloc, row)? {
        Ok(code) => Ok(format!(in alloc; "{}", code.instrs.len())?),
        Err(FlatFault::TooLarge(count)) => Ok(format!(in alloc; "TooLarge {count}")?),
        Err(FlatFault::NoMemory) => Err(Trouble::NoMemory),
    }
}

// The number of each instruction's codelet.
fn told_codelets(alloc: Global, code: &FlatCode) -> Result<String, NoMemory> {
    let codelets = codelets(alloc, code)?;
    let mut told = String::new(alloc);
    for number in codelets.of.as_slice() {
        write!(told, "{number} ")?;
    }
    Ok(told)
}

// For each instruction the first two arrays that it depends on, and those that depend on it.
fn told_arrays(alloc: Global, code: &FlatCode) -> Result<String, NoMemory> {
    let to = reached(alloc, code)?;
    let from = reached_from(alloc, code)?;
    let mut told = String::new(alloc);
    for instruction in 0..code.instrs.len() as u32 {
        tell_row(&mut told, &to, instruction)?;
        told.push('<')?;
        tell_row(&mut told, &from, instruction)?;
        told.push(' ')?;
    }
    Ok(told)
}

// The first two arrays of an instruction.
fn tell_row(told: &mut String, marks: &Reached, instruction: u32) -> Result<(), AllocError>
    requires { instruction < length marks.now.rows }
{
    for array in 0..2 {
        tell_mark(told, marks.has(instruction, array), array)?;
    }
    Ok(())
}

// The array's letter, where it is marked.
fn tell_mark(told: &mut String, is_marked: bool, array: u32) -> Result<(), AllocError> {
    if is_marked {
        told.push(if array == 0 { 'a' } else { 'b' })?;
    }
    Ok(())
}

// Where each instruction runs, the depths of the codelets, the sets of the groups' arrays, and the stages.
fn told_layout(alloc: Global, code: &FlatCode) -> Result<String, NoMemory> {
    let layout = layout_of(alloc, code)?;
    let mut told = String::new(alloc);
    tell_spots(&mut told, layout.spot.as_slice())?;
    tell_numbers(&mut told, layout.depth.as_slice())?;
    for set in layout.arrays.as_slice() {
        write!(told, "{set} ")?;
    }
    write!(told, "/ {}", layout.stages)?;
    Ok(told)
}

// The place of each instruction.
fn tell_spots(told: &mut String, spots: &[Spot]) -> Result<(), AllocError> {
    for spot in spots {
        match spot {
            Spot::Block(block) => write!(told, "b{block} ")?,
            Spot::Group(group) => write!(told, "g{group} ")?,
        }
    }
    Ok(())
}

// Numbers between two signs that divide.
fn tell_numbers(told: &mut String, numbers: &[u32]) -> Result<(), AllocError> {
    told.push_str("/ ")?;
    for number in numbers {
        write!(told, "{number} ")?;
    }
    told.push_str("/ ")
}

fn told_stages(alloc: Global, code: &FlatCode) -> Result<String, NoMemory> {
    let layout = layout_of(alloc, code)?;
    Ok(format!(in alloc; "{}", layout.stages)?)
}

// For each group its units, its depth, and the place of the header at it: 0, or 1 more than the unit.
fn tell_places(alloc: Global, staged: &StagedCode, header: &[i32]) -> Result<String, Trouble> {
    if header.len() != staged.fields() as usize {
        return Err(Trouble::Row);
    }
    let mut room = vec![in alloc; 0i32; staged.slots() as usize]?;
    let mut places = [0u32; 16];
    staged.places(header, &mut room, &mut places);
    let mut told = String::new(alloc);
    for g in 0..staged.groups() {
        let place = places.get(g as usize).copied().unwrap_or(0);
        write!(told, "{}/{}:{place} ", staged.units(g), staged.depth(g))?;
    }
    Ok(told)
}
