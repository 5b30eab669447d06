//! The text of what the program writes: its lines, and the calls that write them.
//!
//! `specs/` says what the lines of a report are, those that tell of a refusal, and those that tell of a program's code.
//! A `Line` has room for each line of its program before one is written.
#![tactic(auto)]

mod accesses;
mod canonical;
mod cells;
mod code_text;
mod cursor;
mod labels;
mod line;
mod plan_text;
mod report;
mod run_text;
mod sums;

pub use labels::labels_of;
pub use line::Line;
pub use plan_text::PlanText;
pub use report::{Report, Style};
