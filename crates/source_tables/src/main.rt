//! Compares what the definitions on the source say of rows of programs with what was worked out by hand.
#![tactic(auto)]

mod tell;

use table_rows::{Trouble, compare_rows};
use tell::answer;

fn main(rt: HostRuntime) -> Result<(), Trouble> {
    compare_rows(&rt, rt.alloc(), answer)
}
