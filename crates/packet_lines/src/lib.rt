//! The packets that are at a pipe of a switch, of which some stand in lines.
//!
//! A packet that waits to be served stands in no line. One whose next step goes to some pipe stands in that
//! pipe's line, in order of coming.
//!
//! The crate knows nothing of the laws of a run. Memory is taken where the lines are made, and nowhere else.
#![tactic(auto)]

mod lines;

pub use lines::PacketLines;
