//! Takes the branches of a checked program away: each condition makes two guards, and each assignment becomes a
//! line under the guard of its block.
#![tactic(auto)]

mod expression;
mod lines;
mod removal;
mod shapes;

pub use removal::remove_branches;
