//! The reader of program texts: tokens, and a parser whose answers are exactly the grammar's.
//!
//! `read_program` takes a text of any bytes and gives its tree. Its contract says which tree, that no
//! text has two, and for what and at which place a text is refused.
#![tactic(auto)]

mod declarations;
mod expressions;
mod fault;
mod lex;
mod limits;
mod operators;
mod parse;
mod read;
mod reader;
mod signs;
mod statements;
mod weigh;

pub use fault::TextFault;
pub use limits::{MAX_TEXT, MAX_WEIGHT};
pub use read::read_program;

#[cfg(test)]
mod tests;
