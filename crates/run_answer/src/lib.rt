//! What a run has done, read off its finished workers: the packets in order of arrival, who served which access and what
//! it touched, how often each unit was served, and the cells of all arrays.
//!
//! Each is told of the run alone, and of no pipe: packets and cells are those of the staged code on the headers, one
//! after another. Nothing here takes memory.
#![tactic(auto)]

mod cells;
mod counts;
mod entries;
mod packets;

pub use cells::push_cells;
pub use counts::push_counts;
pub use entries::push_entries;
pub use packets::write_packets;
