//! The outside of the switch, and the call that the program makes.
//!
//! `Store` and `Sink` are the traits through which files are read and output is written, with doubles in
//! memory and the real edge. `switch_top` takes the words of the command line, a store and two sinks, and
//! answers a `Status`; its contract is what the program promises.
#![tactic(auto)]

mod block;
mod edge;
mod help;
mod limits;
mod line;
mod memory;
mod outside;
mod plan;
mod report;
mod run;
mod status;
mod top;
mod transfer;

pub use domino_compile::ProgramFault;
pub use edge::{FileStore, OutSink};
pub use limits::{MAX_CAPTURE, MAX_TEXT};
pub use memory::{MemorySink, MemoryStore, NamedBytes, SureSink, SureStore};
pub use outside::{Failed, Sink, Store, StoreFault};
pub use status::Status;
pub use switch_net::{Fabric, Gate, OpenGate, Threads};
pub use top::switch_top;
