//! The direct execution of a checked program, one packet after another.
//!
//! A `Bench` holds the cells of a program's register arrays. `packet` executes the transaction on one packet:
//! its contract is the execution of the source over names. Names were resolved when the program was checked,
//! so that a packet takes no memory and looks no name up. `place_of` gives the cell of an array that its index
//! names on some fields.
#![tactic(auto)]

mod bench;
mod execution;
mod value;

pub use bench::Bench;
pub use value::place_of;
