//! Runs transactions on a network of pipes, on one thread and on a thread for each pipe, and compares the packets and the
//! cells with what was worked out by hand. Offers phantoms to new pipes too, and compares what comes of it.
#![tactic(auto)]

mod frames;
mod offers;
mod row;
mod run;
mod trouble;

use offers::outcome_of;
use row::{Line, Offer, Row, line_of};
use run::{Way, answer_to};
use std::alloc::Global;
use std::sync::Wait;
use std::thread::Threads;
use trouble::Trouble;

fn main(rt: HostRuntime) -> Result<(), Trouble> {
    compare_rows(&rt, rt.alloc())
}

// Compares each row of the input, and prints how many there are.
fn compare_rows<R: Print + Input + Threads + Wait + Sync>(
    rt: &R,
    alloc: Global,
) -> Result<(), Trouble> {
    let mut agree: u32 = 0;
    for line in rt.lines(alloc) {
        let line = line?;
        if !line.is_empty() && !line.starts_with('#') {
            compare(rt, alloc, &line)?;
            agree = agree.saturating_add(1);
        }
    }
    println!(rt; "{agree} rows agree")?;
    Ok(())
}

// Compares what a line says with what is found for it.
fn compare<R: Print + Threads + Wait + Sync>(
    rt: &R,
    alloc: Global,
    line: &str,
) -> Result<(), Trouble> {
    match line_of(line) {
        Some(Line::Run(row)) => compare_runs(rt, alloc, line, &row),
        Some(Line::Offer(offer)) => compare_offer(rt, alloc, line, &offer),
        None => {
            println!(rt; "no row: {line}")?;
            Err(Trouble::Row)
        }
    }
}

// Compares a row with what is found for it.
fn compare_runs<R: Print + Threads + Wait + Sync>(
    rt: &R,
    alloc: Global,
    line: &str,
    row: &Row<'_>,
) -> Result<(), Trouble> {
    compare_found(rt, alloc, line, row, Way::Serial(row.numbers[3]))?;
    compare_found(rt, alloc, line, row, Way::Parallel)
}

// Compares a row with what is found for it in one way.
fn compare_found<R: Print + Threads + Wait + Sync>(
    rt: &R,
    alloc: Global,
    line: &str,
    row: &Row<'_>,
    way: Way,
) -> Result<(), Trouble> {
    let found = answer_to(rt, alloc, row, way)?;
    if found.as_str() == row.want {
        Ok(())
    } else {
        println!(rt; "{line}\n  {way:?} gives {found}")?;
        Err(Trouble::Differs)
    }
}

// Prints what comes of an offer, and compares it.
fn compare_offer<R: Print>(
    rt: &R,
    alloc: Global,
    line: &str,
    offer: &Offer<'_>,
) -> Result<(), Trouble> {
    let found = outcome_of(alloc, offer)?;
    println!(rt; "arrival {} to pipe {}: {found}", offer.arrival, offer.to)?;
    if found.as_str() == offer.want {
        Ok(())
    } else {
        println!(rt; "{line}\n  gives {found}")?;
        Err(Trouble::Differs)
    }
}
