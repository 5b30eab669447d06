//! One pipeline of a switch: it lets its own arrivals enter, tells all pipes of them, serves the places of the units that
//! it owns, passes packets on, hands units over from round to round, and takes its own packets home.
//!
//! A pipe knows nothing of the other pipes but what their messages say, and each message keeps its law. What is true of a
//! pipe at every moment is kept in its type. Memory is taken where it is made, and nowhere else.
#![tactic(auto)]

mod entering;
mod leaving;
mod offering;
mod pipe;
mod serving;
mod standing;
mod stepping;
mod turn;

pub use offering::Held;
pub use pipe::Pipe;
pub use turn::Turn;
