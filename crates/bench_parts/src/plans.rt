//! Plans over the most units that a group has.
ghost use Rattle.std.specs.Prelude.{◌≤◌};

use crate::figure::{Figure, Trouble};
use crate::shares::Shares;
use mp5_words::NoMemory;
use std::alloc::Global;
use std::rt::Clock;
use std::time::Instant;

const UNITS: u32 = 65_536;

const PIPELINES: u32 = 8;

const PLANS: u32 = 100;

/// Measures the choice of a plan.
pub fn measure(clock: &impl Clock, alloc: Global) -> Result<Figure, Trouble> {
    let mut shares = Shares::new(alloc, UNITS, PIPELINES)?;
    load(&mut shares);
    let mut chosen = Figure::none();
    let start = Instant::now(clock)?;
    let sum = choose(&shares);
    chosen.add(clock, start, PLANS, sum)?;
    Ok(chosen)
}

// Gives each unit a place or some.
fn load(shares: &mut Shares) {
    for n in 0..UNITS * 3 {
        shares.add(n.wrapping_mul(n) / 32 % UNITS);
    }
}

fn choose(shares: &Shares) -> u32 {
    let mut sum: u32 = 0;
    for _ in 0..PLANS {
        sum = sum.wrapping_add(shares.choose());
    }
    sum
}

/// Measures a plain loop over as many owners and loads.
pub fn plain(clock: &impl Clock, alloc: Global) -> Result<Figure, Trouble> {
    let mut owners = vec![in alloc; 0; UNITS as usize].map_err(NoMemory::from)?;
    let mut loads = vec![in alloc; 3; UNITS as usize].map_err(NoMemory::from)?;
    spread(&mut owners, PIPELINES);
    spread(&mut loads, 5);
    let mut sums = Figure::none();
    let start = Instant::now(clock)?;
    let mut sum: u32 = 0;
    for _ in 0..PLANS {
        sum = sum.wrapping_add(seek(&owners, &loads));
    }
    sums.add(clock, start, PLANS, sum)?;
    Ok(sums)
}

// Numbers below the bound, in turn.
fn spread(numbers: &mut [u32], bound: u32)
    requires { 1 ≤ bound }
{
    let mut n: u32 = 0;
    for number in numbers.iter_mut() {
        *number = n % bound;
        n = n.wrapping_add(1);
    }
}

// Sums the loads by owner, and then seeks the greatest load of the first owner.
fn seek(owners: &[u32], loads: &[u32]) -> u32 {
    let mut totals = [0u32; 8];
    for (owner, load) in owners.iter().zip(loads) {
        let owner = (*owner % 8) as usize;
        totals[owner] = totals[owner].wrapping_add(*load);
    }
    greatest(owners, loads).wrapping_add(totals[0])
}

fn greatest(owners: &[u32], loads: &[u32]) -> u32 {
    let mut most = 0;
    for (owner, load) in owners.iter().zip(loads) {
        if *owner == 0 && *load > most {
            most = *load;
        }
    }
    most
}
