//! The limits of a capture, and the lengths of its headers.

/// The most bytes that a capture has.
pub const MAX_CAPTURE: usize = 134_217_728;

/// The most records that a capture has.
pub const MAX_RECORDS: u32 = 262_144;

/// The most bytes of a frame that a record has.
pub const MAX_FRAME: u32 = 262_144;

/// How many bytes a file header has.
pub const FILE_HEADER_LEN: usize = 24;

/// How many bytes a record header has.
pub const RECORD_HEADER_LEN: usize = 16;
