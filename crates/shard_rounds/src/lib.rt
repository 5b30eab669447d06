//! Who owns the units of the groups of arrays, round by round, and which units move.
//!
//! A unit starts at a pipe by its number and the number of its group. Each later round has a plan, whose moves
//! give units to other pipes. `Owners` tells who owns a unit now, or owned it after the first plans. `Loads`
//! counts the places of each unit, and `choose_moves` decides the next moves by them: in each group the pipe
//! with the greatest total load gives one unit to the pipe with the least.
#![tactic(auto)]

mod choice;
mod loads;
mod owners;
mod plan;
mod row;

pub use choice::{choose_into, choose_moves};
pub use loads::Loads;
pub use owners::Owners;
pub use plan::{Move, Plan};
