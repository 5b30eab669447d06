//! Runs made bodies through their source, their guarded lines and their flat code, and compares the fields, the
//! cells and the touched arrays after each packet.
#![tactic(auto)]

mod body;
mod cells;
mod lines;
mod maker;
mod slots;
mod trouble;

use body::run_body;
use trouble::Trouble;

/// How many bodies are made, by the seeds from 1 on.
const BODIES: u64 = 2000;

fn main(rt: HostRuntime) -> Result<(), Trouble> {
    let mut bodies: u32 = 0;
    let mut untouched: u32 = 0;
    let mut hashes: u32 = 0;
    for seed in 1..=BODIES {
        let shown = run_body(rt.alloc(), seed)?;
        bodies = bodies.saturating_add(1);
        untouched = untouched.saturating_add(shown.untouched);
        hashes = hashes.saturating_add(shown.hashes);
    }
    if untouched < 2000 || hashes < 2000 {
        return Err(Trouble::TooPlain);
    }
    println!(rt; "{bodies} bodies: the source, its lines and its instructions agree")?;
    Ok(())
}
