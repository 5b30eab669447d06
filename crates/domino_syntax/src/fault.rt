ghost use Rattle.std.specs.Prelude.{◌≡◌};

use std::alloc::{AllocError, AllocFailed};
use thiserror::Error;

/// Why a program text isn't read. Where several are true of a text, the first of them in this order is the
/// answer; want of memory may come in place of any answer. The command's report gives each but the last by
/// its number.
#[derive(Debug, Drop, Error)]
pub enum TextFault {
    /// Number 1: the text has so many bytes, more than 65,536.
    #[error("the text has {0} bytes, more than 65536")]
    TooLong(u64),
    /// Number 2: at this byte no token begins, and all before it are whole tokens, white space and comments.
    #[error("no token begins at byte {0}")]
    BadToken(u32),
    /// Number 4: so many tokens at the front have a weight of at most 64 throughout, and the next one brings
    /// it over 64. The weight is how deep the brackets are, and how many operators stand in them.
    #[error("token {0} nests too deep")]
    TooDeep(u32),
    /// Number 3: so many tokens at the front begin some program of the grammar, and with the next one they
    /// begin none, or there is no next one and they are no whole program.
    #[error("no program of the grammar goes on with token {0}")]
    Syntax(u32),
    /// Memory ran out.
    #[error("out of memory")]
    NoMemory,
}

impl From<AllocError> for TextFault {
    ghost use Rattle.domino_syntax.specs.declared.fault.TextFault.TheVariants.{NoMemory};

    ghost from_gives = { λ _ e. e ≡ NoMemory };

    fn from(_error: AllocError) -> TextFault {
        TextFault::NoMemory
    }
}

impl<T: Drop> From<AllocFailed<T>> for TextFault {
    ghost use Rattle.domino_syntax.specs.declared.fault.TextFault.TheVariants.{NoMemory};

    ghost from_gives = { λ _ e. e ≡ NoMemory };

    fn from(_error: AllocFailed<T>) -> TextFault {
        TextFault::NoMemory
    }
}
