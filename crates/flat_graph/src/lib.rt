//! Flat code as a graph: each instruction with the array that it loads, copies or stores, and with the instructions
//! that it uses. `reached` tells for each instruction which arrays it depends on, directly or through others, and
//! `reached_from` which depend on it; the passes behind flat code begin from these.
#![tactic(auto)]

mod dependencies;
mod dependents;
mod graph;
mod hands;
mod marks;
mod node;
mod places;
mod rows;

pub use dependencies::reached;
pub use dependents::reached_from;
pub use graph::Graph;
pub use marks::Reached;
pub use node::Node;
