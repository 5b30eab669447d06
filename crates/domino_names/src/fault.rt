ghost use Rattle.std.specs.Prelude.{◌≡◌};

use mp5_words::Name;
use std::alloc::{AllocError, AllocFailed};
use thiserror::Error;

/// What a program can have too many of.
#[derive(Clone, Copy, Debug, PartialEq, Eq)]
pub enum What {
    /// Defined names.
    Defines,
    /// Fields of the packet.
    Fields,
    /// Registers and register arrays.
    Arrays,
    /// Cells of all arrays together.
    Cells,
}

/// Why a program isn't accepted. The checks are made in the order of these variants; within one of them the
/// first place in text order decides.
#[derive(Debug, Drop, Error)]
pub enum CheckFault {
    /// The name is declared again: a field's among the fields, another among all names that are no fields.
    /// The four hash names count as declared before the text; the struct's name is in neither class.
    #[error("a name is declared twice")]
    Twice(Name),
    /// The name is used and declared nowhere in its class, or it is the function's packet type and not the
    /// struct's name.
    #[error("a name is used and not declared")]
    Unknown(Name),
    /// The name is used as another kind than the one that it is declared as.
    #[error("a name is used as another kind")]
    WrongKind(Name),
    /// The hash function is called with another number of arguments than it takes.
    #[error("a hash function takes another number of arguments")]
    Arity(Name),
    /// The array's length, the second part, isn't from 1 to 65,536.
    #[error("an array has the length {1}")]
    BadLength(Name, i32),
    /// There are so many, which is past the limit.
    #[error("there are {1} of a kind, past its limit")]
    TooMany(What, u64),
    /// An access of the array has another index than its first access in text order, or an index in which an
    /// array stands.
    #[error("an array is accessed at two indexes")]
    IndexDiffers(Name),
    /// A field of the array's index is assigned at or after the first assignment or condition that touches
    /// the array.
    #[error("an array's index moves")]
    IndexMoves(Name),
    /// Memory ran out.
    #[error("out of memory")]
    NoMemory,
}

impl From<AllocError> for CheckFault {
    ghost use Rattle.domino_names.specs.declared.fault.CheckFault.TheVariants.{NoMemory};

    ghost from_gives = { λ _ e. e ≡ NoMemory };

    fn from(_error: AllocError) -> CheckFault {
        CheckFault::NoMemory
    }
}

impl<T: Drop> From<AllocFailed<T>> for CheckFault {
    ghost use Rattle.domino_names.specs.declared.fault.CheckFault.TheVariants.{NoMemory};

    ghost from_gives = { λ _ e. e ≡ NoMemory };

    fn from(_error: AllocFailed<T>) -> CheckFault {
        CheckFault::NoMemory
    }
}
