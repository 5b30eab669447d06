//! The network of a switch: its pipes, a lane from each to each, and the caller that decides the plans.
//!
//! `Network::build` takes all memory. `run_serial` lets the pipes take turns on one thread, in an order that a seed names,
//! until each has finished; whatever that order is, the answer is what the staged code gives on the headers, one after
//! another. `Fabric` is what a caller runs its networks on, and tells of each run by a mark.
#![tactic(auto)]

mod answer;
mod building;
mod fabric;
mod gate;
mod network;
mod parallel;
mod planning;
mod serial;
mod watch;

pub use answer::Answer;
pub use fabric::{Fabric, Mark, Ran, Threads};
pub use gate::{Gate, OpenGate};
pub use network::{Ended, Network};
pub use switch_worker::Worker;
