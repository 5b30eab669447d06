//! A group of arrays at one pipe: its places in order of arrival, the present round, the units that are in hand, and how
//! often each was served. The type keeps what a run says of them: which places are unserved, how far each unit has come,
//! and how often it was served. Each call does one thing and keeps that.
#![tactic(auto)]

mod station;

pub use station::Station;
