//! What pipes tell each other, and the law of each message.
//!
//! A message says what its sender knows of a run; its law says that this is so. Lanes between two pipes carry messages
//! that fit: each keeps the law, and phantoms come in order of arrival, none left out.
#![tactic(auto)]

mod message;

pub use message::{LaneKey, Message};
