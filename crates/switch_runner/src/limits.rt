//! How long the files may be.

/// The most bytes that a program's text has.
pub const MAX_TEXT: u64 = 65536;

/// The most bytes that a capture has.
pub const MAX_CAPTURE: u64 = 134217728;
