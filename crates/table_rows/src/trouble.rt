//! Why the run ended early.

use mp5_words::NoMemory;
use std::alloc::AllocError;
use std::io;

/// Why the run ended early.
#[derive(Debug, Drop)]
pub enum Trouble {
    NoMemory,
    /// The input or the output failed.
    Outside,
    /// A line isn't a row, or its text isn't a program.
    Row,
    /// A row has another answer.
    Differs,
}

impl From<NoMemory> for Trouble {
    fn from(_error: NoMemory) -> Trouble {
        Trouble::NoMemory
    }
}

impl From<AllocError> for Trouble {
    fn from(_error: AllocError) -> Trouble {
        Trouble::NoMemory
    }
}

impl From<io::Error> for Trouble {
    fn from(_error: io::Error) -> Trouble {
        Trouble::Outside
    }
}
