//! Which arrays of a program need which, and where a header has its places, by walks over its source as slow and plain
//! as the definitions: so that these can be run on worked rows.
#![tactic(auto)]

mod arrays;
mod group_places;
mod groups;
mod mark;
mod mark_values;
mod marked;
mod members;
mod order;
mod places;
mod sets;
mod shards;
mod sources;
mod table;
mod trees;
mod values;

pub use group_places::place;
pub use groups::groups_of;
pub use order::text_order;
pub use places::{array_places, open_arrays};
pub use shards::{is_sharded, units};
pub use table::needs;
