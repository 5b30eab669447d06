//! Why code isn't flattened.

ghost use Rattle.std.specs.Prelude.{◌≡◌};

use std::alloc::AllocError;
use thiserror::Error;

/// Why code isn't flattened.
#[derive(Clone, Copy, Debug, PartialEq, Eq, Error)]
pub enum FlatFault {
    /// The code has so many instructions, more than 1,024.
    #[error("the code has {0} instructions")]
    TooLarge(u32),
    /// There was no memory.
    #[error("no memory")]
    NoMemory,
}

impl From<AllocError> for FlatFault {
    ghost use Rattle.ssa_flatten.specs.declared.fault.FlatFault.TheVariants.{NoMemory};

    ghost from_gives = { λ _ e. e ≡ NoMemory };

    fn from(_error: AllocError) -> FlatFault {
        FlatFault::NoMemory
    }
}
