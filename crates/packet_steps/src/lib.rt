//! A packet in a run: the law that it keeps on its way, and each step that it takes at a pipe.
//!
//! A packet enters with its header, and the first block is run. At each group at which it has a place it is
//! served by the pipe that owns the unit in its round; any other group it skips. Behind all groups it goes home,
//! where the last values of its fields are written. Each step keeps the law, and none takes memory.
#![tactic(auto)]

mod heading;
mod run_data;

pub use heading::Heading;
pub use run_data::RunData;
