//! A worker of a switch: a pipe with its ends of the lanes to and from each pipe.
//!
//! Each lane goes from one pipe of the run to another, or to itself, and its key has the run and the two numbers. The
//! worker says nothing of what went over its lanes: who moves messages over them keeps that.
#![tactic(auto)]

mod worker;

pub use worker::Worker;
