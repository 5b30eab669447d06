//! Where the own packets of one pipe enter and come home.
//!
//! An own arrival enters with an environment of its own, at most a window of them at a time. When it comes
//! home, its fields and what was done to it stay here, and its environment is free for the next. The door knows
//! nothing of the laws of a run. Memory is taken where it is made, and nowhere else.
#![tactic(auto)]

mod door;

pub use door::HomeDoor;
