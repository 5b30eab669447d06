//! The answers of the plain programs in words.

use dependence::{ArrayGroups, Table, close};
use domino_check::Checked;
use mp5_words::NoMemory;
use source_rows::{
    array_places, groups_of, is_sharded, needs, open_arrays, place, text_order, units,
};
use std::alloc::{AllocError, Global};
use table_rows::{Row, Trouble, checked_of};

/// What the row's program gives for its question, `none` where that is nothing.
pub fn answer(alloc: Global, row: &Row<'_>) -> Result<String, Trouble> {
    let checked = checked_of(alloc, row)?;
    let told = told(alloc, &checked, row)?;
    if told.is_empty() {
        Ok(String::from_str(alloc, "none")?)
    } else {
        Ok(told)
    }
}

// What a program gives for a question.
fn told(alloc: Global, checked: &Checked, row: &Row<'_>) -> Result<String, Trouble> {
    match row.word {
        "needs" => Ok(told_needs(alloc, checked)?),
        "reaches" => Ok(told_reaches(alloc, checked)?),
        "groups" => Ok(told_groups(alloc, checked)?),
        "open" => Ok(told_open(alloc, checked, &row.header)?),
        "units" => Ok(told_units(alloc, checked, &row.header)?),
        "order" => Ok(told_order(alloc, checked)?),
        _ => Err(Trouble::Row),
    }
}

// Which array needs which.
fn told_needs(alloc: Global, checked: &Checked) -> Result<String, NoMemory> {
    let table = needs(alloc, checked)?;
    let mut told = String::new(alloc);
    tell_table(&mut told, &table)?;
    Ok(told)
}

// Which array reaches which.
fn told_reaches(alloc: Global, checked: &Checked) -> Result<String, NoMemory> {
    let mut table = needs(alloc, checked)?;
    close(&mut table);
    let mut told = String::new(alloc);
    tell_table(&mut told, &table)?;
    Ok(told)
}

// Puts what divides two parts before a part, unless it is the first.
fn divide(told: &mut String, by: &str) -> Result<(), AllocError> {
    if told.is_empty() {
        Ok(())
    } else {
        told.push_str(by)
    }
}

// Each array with a mark, and behind it the marks of its row.
fn tell_table(told: &mut String, table: &Table) -> Result<(), AllocError> {
    for (a, row) in table.iter().enumerate() {
        if row.contains(&true) {
            divide(told, "; ")?;
            write!(told, "{a}:")?;
            tell_marks(told, row)?;
        }
    }
    Ok(())
}

fn tell_marks(told: &mut String, row: &[bool]) -> Result<(), AllocError> {
    for (b, mark) in row.iter().enumerate() {
        if *mark {
            write!(told, " {b}")?;
        }
    }
    Ok(())
}

// The groups of the first four arrays, and how many there are.
fn told_groups(alloc: Global, checked: &Checked) -> Result<String, NoMemory> {
    let groups = groups_of(alloc, checked)?;
    let mut told = String::new(alloc);
    tell_firsts(&mut told, &groups.of)?;
    let count = groups.count;
    write!(told, "of {count}")?;
    Ok(told)
}

fn tell_firsts(told: &mut String, groups: &[Option<u32>; 16]) -> Result<(), AllocError> {
    for group in groups[..4].iter() {
        match group {
            Some(group) => write!(told, "{group} ")?,
            None => told.push_str("- ")?,
        }
    }
    Ok(())
}

// The open arrays with their places.
fn told_open(alloc: Global, checked: &Checked, header: &[i32]) -> Result<String, NoMemory> {
    let open = open_arrays(alloc, checked, header)?;
    let places = array_places(alloc, checked, header)?;
    let mut told = String::new(alloc);
    tell_open(&mut told, &open, &places)?;
    Ok(told)
}

fn tell_open(told: &mut String, open: &[bool; 16], places: &[u32; 16]) -> Result<(), AllocError> {
    for a in 0..16usize {
        if open[a] {
            divide(told, " ")?;
            let place = places[a];
            write!(told, "{a}@{place}")?;
        }
    }
    Ok(())
}

// For each group whether it is sharded or pinned, its units, and where the header has a place the unit.
fn told_units(alloc: Global, checked: &Checked, header: &[i32]) -> Result<String, NoMemory> {
    let groups = groups_of(alloc, checked)?;
    let mut told = String::new(alloc);
    for group in 0..groups.count {
        divide(&mut told, "; ")?;
        tell_kind(alloc, &mut told, checked, &groups, group)?;
        tell_place(alloc, &mut told, checked, header, &groups, group)?;
    }
    Ok(told)
}

// Whether a group is sharded, and its units.
fn tell_kind(
    alloc: Global,
    told: &mut String,
    checked: &Checked,
    groups: &ArrayGroups,
    group: u32,
) -> Result<(), NoMemory> {
    let sharded = is_sharded(alloc, checked, groups, group)?;
    let units = units(alloc, checked, groups, group)?;
    told.push_str(if sharded { "sharded" } else { "pinned" })?;
    write!(told, " {units}")?;
    Ok(())
}

// The unit of the header's place at a group, where it has one.
fn tell_place(
    alloc: Global,
    told: &mut String,
    checked: &Checked,
    header: &[i32],
    groups: &ArrayGroups,
    group: u32,
) -> Result<(), NoMemory> {
    match place(alloc, checked, header, groups, group)? {
        Some(unit) => write!(told, " at {unit}")?,
        None => (),
    }
    Ok(())
}

// The arrays that the sites touch, in text order.
fn told_order(alloc: Global, checked: &Checked) -> Result<String, NoMemory> {
    let arrays = text_order(alloc, checked)?;
    let mut told = String::new(alloc);
    for array in arrays.as_slice() {
        divide(&mut told, " ")?;
        write!(told, "{array}")?;
    }
    Ok(told)
}
