//! The parts of a pipe, one pipeline of a switch, that know nothing of the laws of a run.
//!
//! The packets that are here stand in a pool and are found by the number of their arrival. Messages to other
//! pipes wait in an outbox, free environments in a stack, and what was done to the own arrivals is kept by
//! their numbers. Memory is taken where a part is made, and nowhere else.
#![tactic(auto)]

mod entries;
mod env;
mod envs;
mod outbox;
mod packet;
mod pool;

pub use entries::{Entries, Entry};
pub use env::Env;
pub use envs::Envs;
pub use outbox::Outbox;
pub use packet::Packet;
pub use pool::PacketPool;
