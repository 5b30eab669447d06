//! Dependence as a graph of numbers: what reaches what, which classes that makes, and how deep they lie.
//!
//! An instruction depends on those that it uses, and the instructions of one array depend on each other. As uses
//! are earlier, a cycle passes an array: so which of sixteen arrays reach which decides the classes of mutual
//! reaching. `close` makes that table from single steps, `number_classes` numbers places by their class, and
//! `number_groups` numbers the groups of arrays by level. The laws of longest paths and of groups are stated over any
//! relation, for the source and the code alike.
#![tactic(auto)]

mod classes;
mod groups;
mod table;

pub use classes::number_classes;
pub use groups::{ArrayGroups, number_groups};
pub use table::{Table, close, unite};
