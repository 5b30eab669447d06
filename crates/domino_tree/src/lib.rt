//! A packet transaction as a tree, and the grammar that ties it to its tokens.
//!
//! The types are the forms of the source. Contracts see a tree as plain data: a `Name` is its list of
//! bytes, `Items` a list and `Boxed` the value inside. `specs/` says which token lists the grammar
//! derives to which tree, how much tokens weigh, and what a tree means: the value of an expression, the
//! execution of the transaction on one packet, and its run over one packet after another. `print` gives
//! the canonical text of a program.
#![tactic(auto)]

mod expr;
mod hashes;
mod operators;
mod printing;
mod program;
mod token;

pub use expr::Expr;
pub use hashes::{HASH_KINDS, hash_kind, hash_name};
pub use operators::{SIGNS, level, operator_before, operator_between, sign_before, sign_between};
pub use printing::print;
pub use program::{Arm, Function, Item, PacketDecl, Program, Size, Start, Stmt, Target};
pub use token::{Effect, Keyword, Sign, Token};
