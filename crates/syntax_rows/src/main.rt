//! Compares what rows of texts are read as with what was worked out by hand.
#![tactic(auto)]

mod answers;
mod shape;

use answers::answer;
use table_rows::{Trouble, compare_rows};

fn main(rt: HostRuntime) -> Result<(), Trouble> {
    compare_rows(&rt, rt.alloc(), answer)
}
