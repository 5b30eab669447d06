//! Made captures: packets whose fields come from the words of a random number generator, so that the same
//! number of packets and the same seed give the same capture everywhere.
#![tactic(auto)]

mod making;
mod packet;

pub use making::make_capture;

#[cfg(test)]
mod tests;
