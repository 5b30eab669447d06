//! Compares what the passes of the compiler make of rows of programs with what was worked out by hand.
#![tactic(auto)]

mod answers;
mod passes;
mod running;
mod tell;

use answers::answer;
use table_rows::{Trouble, compare_rows};

fn main(rt: HostRuntime) -> Result<(), Trouble> {
    compare_rows(&rt, rt.alloc(), answer)
}
