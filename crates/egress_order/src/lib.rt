//! A pipe's own packets from their entering to their leaving, in order of arrival.
//!
//! A pipe is the home of every arrival whose number modulo the number of pipelines is its own. It lets them
//! enter in order, and keeps at most a window of them out; each comes home with the last value of its fields.
//! `merge` writes the packets of one exit where they stand in order of arrival, so that the exits of all pipes
//! together give the packets of the run.
#![tactic(auto)]

mod exit;

pub use exit::{HomeExit, merge};
