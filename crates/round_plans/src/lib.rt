//! The plans of a run, decided one after another: the one before round `e + 1` by the places of all arrivals
//! before round `e`. To decide them takes the code and the capture alone, and no pipe.
#![tactic(auto)]

mod counted;
mod planner;

pub use planner::Planner;
