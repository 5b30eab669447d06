//! Packs flat code into stages: the groups of its arrays, a block for each instruction outside every group, and the
//! depth of each codelet. `pack` gives the layout, exactly, and that in running order each instruction stands behind
//! those that it uses.
#![tactic(auto)]

mod depths;
mod groups;
mod packing;
mod spots;

pub use packing::pack;
