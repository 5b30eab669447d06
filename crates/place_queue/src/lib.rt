//! The places of one group of arrays at one pipe, served in order of arrival.
//!
//! A source announces its own arrivals in order, each with the unit that it wants of this group here, or
//! without one. A `Places` keeps, for each source, the floor below which it has announced everything, and all
//! places that were given and not served. The least of them is served once every floor is above it, since
//! then no earlier one can come.
#![tactic(auto)]

mod place;
mod queue;

pub use place::{Place, PlaceFull};
pub use queue::Places;
