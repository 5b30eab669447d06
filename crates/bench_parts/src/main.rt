//! The program `bench_parts`: what the parts of a network of pipelines and the passes of the compiler take, beside
//! plain loops, and staged code beside the direct execution of its source.
#![tactic(auto)]

mod figure;
mod hops;
mod passes;
mod plans;
mod queue;
mod shares;
mod staged;
mod visits;

use figure::{Figure, Trouble};
use std::alloc::Global;
use std::env;
use std::rt::Clock;
use std::sync::Wait;
use std::thread::Threads;

/// Whether the first word of the command line asks for the figures.
fn is_measure(rt: &HostRuntime) -> Result<bool, Trouble> {
    match env::args(rt)?.nth(1) {
        Some(word) => Ok(word.as_str() == "measure"),
        None => Ok(false),
    }
}

/// Prints a figure of a part, and that of the plain loop beside it.
fn show(
    rt: &impl Print,
    name: &str,
    part: Figure,
    beside: &str,
    plain: Figure,
) -> Result<(), Trouble> {
    println!(rt; "{name}\t{part}\t{beside}\t{plain}")?;
    Ok(())
}

/// Measures the passes of the compiler.
fn measure_passes<R: Print + Clock>(rt: &R, alloc: Global) -> Result<(), Trouble> {
    let passes = passes::measure(rt, alloc)?;
    show(
        rt,
        "remove branches",
        passes.removed,
        "copy 1024 instructions",
        passes.copied,
    )?;
    show(
        rt,
        "flatten",
        passes.flattened,
        "copy 1024 instructions",
        passes.copied,
    )?;
    show(
        rt,
        "codelets and stages",
        passes.packed,
        "copy 1024 instructions",
        passes.copied,
    )
}

/// Measures staged code.
fn measure_staged<R: Print + Clock>(rt: &R, alloc: Global) -> Result<(), Trouble> {
    let runs = staged::measure(rt, alloc)?;
    show(
        rt,
        "staged packet",
        runs.staged,
        "direct packet",
        runs.direct,
    )
}

/// Measures announcements and services.
fn measure_visits<R: Print + Clock>(rt: &R, alloc: Global) -> Result<(), Trouble> {
    let visits = visits::measure(rt, alloc)?;
    let stores = visits::plain(rt, alloc)?;
    show(
        rt,
        "announce with a unit",
        visits.given,
        "store a place and a floor",
        stores.given,
    )?;
    show(
        rt,
        "announce without a unit",
        visits.passed,
        "store a floor and compare",
        stores.passed,
    )?;
    show(
        rt,
        "next and served",
        visits.served,
        "read a place and count",
        stores.served,
    )
}

/// Measures hops over a lane.
fn measure_hops<R: Print + Clock + Wait + Threads + Sync>(
    rt: &R,
    alloc: Global,
) -> Result<(), Trouble> {
    let copies = hops::plain(rt, alloc)?;
    let alone = hops::alone(rt, alloc)?;
    show(
        rt,
        "hop on one thread",
        alone,
        "copy into a ring and out",
        copies,
    )?;
    let across = hops::across(rt, alloc)?;
    show(
        rt,
        "hop between two threads",
        across,
        "copy into a ring and out",
        copies,
    )
}

/// Measures plans.
fn measure_plans<R: Print + Clock>(rt: &R, alloc: Global) -> Result<(), Trouble> {
    let plan = plans::measure(rt, alloc)?;
    let sums = plans::plain(rt, alloc)?;
    show(
        rt,
        "plan over 65536 units",
        plan,
        "sum by owner, then seek",
        sums,
    )
}

/// Measures each part in turn.
fn measure<R: Print + Clock + Wait + Threads + Sync>(rt: &R, alloc: Global) -> Result<(), Trouble> {
    measure_passes(rt, alloc)?;
    measure_staged(rt, alloc)?;
    measure_visits(rt, alloc)?;
    measure_hops(rt, alloc)?;
    measure_plans(rt, alloc)
}

fn main(rt: HostRuntime) -> Result<(), Trouble> {
    if is_measure(&rt)? {
        measure(&rt, rt.alloc())
    } else {
        println!(rt; "usage: bench_parts measure")?;
        Ok(())
    }
}
