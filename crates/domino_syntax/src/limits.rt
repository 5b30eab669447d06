//! The limits of a program text.

/// The most bytes that a program text has.
pub const MAX_TEXT: usize = 65536;

/// The greatest weight that the tokens of a program text have: how deep the brackets are, and how many
/// operators stand in them.
pub const MAX_WEIGHT: usize = 64;
