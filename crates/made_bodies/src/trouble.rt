//! Why the run ended early.

use mp5_words::NoMemory;
use std::alloc::AllocError;
use std::io;

/// Why the run ended early.
#[derive(Debug, Drop)]
pub enum Trouble {
    NoMemory,
    /// The output failed.
    Outside,
    /// A made text isn't a program, or its code is too large.
    Refused,
    /// Two runs of a body differ.
    Differs,
    /// The bodies show too little.
    TooPlain,
}

impl From<NoMemory> for Trouble {
    fn from(_error: NoMemory) -> Trouble {
        Trouble::NoMemory
    }
}

impl From<AllocError> for Trouble {
    fn from(_error: AllocError) -> Trouble {
        Trouble::NoMemory
    }
}

impl From<io::Error> for Trouble {
    fn from(_error: io::Error) -> Trouble {
        Trouble::Outside
    }
}
