//! The lane between two pipelines: a bounded queue with one sender and one receiver, each of which may
//! live on a thread of its own.
//!
//! A lane has a key, on which its two ends agree, and carries only items that fit the key after the items
//! that were sent before them (`Carried`). `pair` makes the two ends; a `Sender` is seen as what it has
//! sent, a `Receiver` as what it has received. The layer above uses that each item received fits the key
//! after the items received before it, whatever the other thread does in between.
#![tactic(auto)]

mod carried;
mod ends;
mod receiver;
mod rule;
mod sender;

pub use carried::Carried;
pub use ends::{MAX_CAPACITY, pair};
pub use receiver::Receiver;
pub use sender::{Full, Sender};

#[cfg(test)]
mod tests;
