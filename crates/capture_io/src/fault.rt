ghost use Rattle.std.specs.Prelude.{◌≡◌};
ghost use Rattle.capture_io.specs.declared.fault.CaptureFault.TheVariants.{NoMemory};

use std::alloc::{AllocError, AllocFailed};
use thiserror::Error;

/// Why bytes aren't read as a capture: the first of these that holds, in this order, but that the
/// records are judged one after another.
#[derive(Clone, Copy, Debug, PartialEq, Eq, Error)]
pub enum CaptureFault {
    /// There are so many bytes, more than a capture may have.
    #[error("there are {0} bytes, more than a capture may have")]
    TooLong(u64),
    /// There are so many bytes, fewer than a file header has.
    #[error("there are {0} bytes, fewer than a file header has")]
    ShortHeader(u32),
    /// The bytes begin a pcapng file.
    #[error("this is a pcapng file")]
    PcapNg,
    /// The first four bytes, most significant first, are this word, and no magic.
    #[error("the first word {0:08x} is no magic")]
    BadMagic(u32),
    /// The version isn't 2.4, but this major and this minor version.
    #[error("the version is {0}.{1} and not 2.4")]
    Version(u16, u16),
    /// The link type, the low 16 bits of this word, isn't Ethernet's, which is 1.
    #[error("the link word is {0}, which isn't Ethernet")]
    LinkType(u32),
    /// The record at this byte has this captured length, more than a record may have.
    #[error("the record at byte {0} has captured length {1}, more than a record may have")]
    LongRecord(u32, u32),
    /// The record that starts at this byte doesn't end within the bytes.
    #[error("the record at byte {0} is cut")]
    Truncated(u32),
    /// This is the number of the first record past those that a capture may have.
    #[error("there are {0} records or more")]
    TooMany(u32),
    /// Memory ran out.
    #[error("out of memory")]
    NoMemory,
}

impl From<AllocError> for CaptureFault {
    ghost from_gives = { λ _ e. e ≡ NoMemory };

    fn from(_e: AllocError) -> CaptureFault {
        CaptureFault::NoMemory
    }
}

impl<T: Drop> From<AllocFailed<T>> for CaptureFault {
    ghost from_gives = { λ _ e. e ≡ NoMemory };

    fn from(_e: AllocFailed<T>) -> CaptureFault {
        CaptureFault::NoMemory
    }
}
