//! Compiled code run on a network of pipes, as its source.
//!
//! `run` runs the code of a program on a capture's headers with a thread for each pipe, and `run_serial` on one thread. Both
//! answer the packets and the cells of the program's transaction, executed on one header after another.
#![tactic(auto)]

mod parallel;
mod serial;

pub use parallel::run;
pub use serial::run_serial;
