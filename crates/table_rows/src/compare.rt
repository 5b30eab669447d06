//! The rows of a table, each compared with what is found.

use crate::row::{Row, is_row, row_of};
use crate::trouble::Trouble;
use std::alloc::Global;

/// Compares each row of the input with what is found for it, and prints how many there are. A row that differs is
/// printed, and ends the run.
pub fn compare_rows<R: Print + Input, F: Fn(Global, &Row<'_>) -> Result<String, Trouble>>(
    rt: &R,
    alloc: Global,
    find: F,
) -> Result<(), Trouble>
    requires { F.IsAlwaysCallable find }
{
    let mut agree: u32 = 0;
    for line in rt.lines(alloc) {
        let line = line?;
        if is_row(&line) {
            compare(rt, alloc, &line, &find)?;
            agree = agree.saturating_add(1);
        }
    }
    println!(rt; "{agree} rows agree")?;
    Ok(())
}

// Compares a row with what is found for it.
fn compare<R: Print, F: Fn(Global, &Row<'_>) -> Result<String, Trouble>>(
    rt: &R,
    alloc: Global,
    line: &str,
    find: &F,
) -> Result<(), Trouble>
    requires { F.IsAlwaysCallable find.now }
{
    let Some(row) = row_of(line) else {
        println!(rt; "no row: {line}")?;
        return Err(Trouble::Row);
    };
    let found = find(alloc, &row)?;
    if found.as_str() == row.want {
        Ok(())
    } else {
        println!(rt; "{line}\n  gives {found}")?;
        Err(Trouble::Differs)
    }
}
