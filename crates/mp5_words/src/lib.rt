//! Word arithmetic, hashes and names, which every other crate cites.
//!
//! A value of a packet transaction is a 32-bit two's complement word. `apply1` and `apply2` give the
//! operations on words, `hash` the hash functions, and `cell_of` the cell that an index word names; their
//! contracts state them as equations on whole numbers. `Name` and `FieldNames` are names as lists of
//! bytes.
#![tactic(auto)]

mod hashing;
mod memory;
mod name;
mod op;
mod settings;

pub use hashing::{HashKind, cell_of, hash};
pub use memory::NoMemory;
pub use name::{FieldNames, Name};
pub use op::{Op1, Op2, apply1, apply2};
pub use settings::{MAX_PIPELINES, MAX_ROUND, MAX_WINDOW, Settings};
