//! Gives the groups of flat code their places: which arrays a header reserves, and at which unit. `resolve` puts the
//! code into the parts of its layout, with the steps of its header run; places are those that marks tell, and no header
//! without a place at a group touches an array of it.
#![tactic(auto)]

mod clean;
mod groups;
mod header;
mod order;
mod parts;

pub use parts::resolve;
