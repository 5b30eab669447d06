//! What moves the messages of one worker: from each lane to the pipe, and from the pipe to each
//! lane, with one own event between.
//!
//! A pipe knows nothing of lanes, and a lane nothing of pipes. A driver keeps what joins them: on
//! each lane the phantoms of the sender's arrivals go in order, none left out, and those that the
//! pipe took in are announced at each of its groups. So each message that is offered is one that
//! may be offered, and each that is sent fits its lane. Memory is taken where a driver is made,
//! and nowhere else.
#![tactic(auto)]

mod driver;
mod hearing;
mod telling;
mod turning;

pub use driver::Driver;
