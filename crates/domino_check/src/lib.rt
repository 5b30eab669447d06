//! What a program must keep beyond its names: one index for each array, which doesn't move. An accepted program is
//! seen in numbers, and keeps all that was found out about it.
#![tactic(auto)]

mod all_checks;
mod checked;
mod indexes;
mod numbered;
mod parts;
mod sites;
mod translation;

pub use all_checks::check;
pub use checked::Checked;
pub use domino_names::{ArrayInfo, CheckFault, What};
pub use numbered::{CheckedArm, CheckedExpr, CheckedStmt};
