//! The words of the command line `mp5 MODE PROGRAM CAPTURE`, with the options `--pipelines`,
//! `--window`, `--round` and `--seed` and the flags `--trace` and `--brief`, read with `clap`.
//!
//! `asked` answers the request that the words make, or whether they ask for help or aren't taken.
//! `clap`'s description of simple commands covers the ranges and the default values of the
//! options: so the contract says, by that description, for all words what they ask for. A capture
//! is a file's name, or `gen:COUNT:SEED` for one that is made; no other word may begin with `gen:`
//! there.
#![tactic(auto)]

mod request;
mod words;

pub use request::{CaptureName, MAX_MADE, Mode, Request, WordsFault};
pub use words::asked;
