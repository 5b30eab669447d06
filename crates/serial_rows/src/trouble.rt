//! Why the comparison ended early.

use mp5_words::NoMemory;
use std::alloc::AllocError;
use std::io;

/// Why the comparison ended early.
#[derive(Debug, Drop)]
pub enum Trouble {
    NoMemory,
    /// The input or the output failed.
    Outside,
    /// A line is no row, or its program or its settings aren't accepted.
    Row,
    /// A row differs from what is found.
    Differs,
}

impl From<NoMemory> for Trouble {
    fn from(_error: NoMemory) -> Trouble {
        Trouble::NoMemory
    }
}

impl From<AllocError> for Trouble {
    fn from(_error: AllocError) -> Trouble {
        Trouble::NoMemory
    }
}

impl From<io::Error> for Trouble {
    fn from(_error: io::Error) -> Trouble {
        Trouble::Outside
    }
}
