//! Compares what the checks say of rows of programs, and what an execution touches, with what was worked out by hand.
#![tactic(auto)]

mod answers;

use answers::answer;
use table_rows::{Trouble, compare_rows};

fn main(rt: HostRuntime) -> Result<(), Trouble> {
    compare_rows(&rt, rt.alloc(), answer)
}
