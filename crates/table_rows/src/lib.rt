//! Tables of rows that were worked out by hand: a line with a question, a program, a header and the answer. The programs
//! that compare such rows with what they find stand on this crate.
#![tactic(auto)]

mod compare;
mod program;
mod row;
mod trouble;

pub use compare::compare_rows;
pub use program::{checked_of, text_of};
pub use row::{Row, is_row, row_of};
pub use trouble::Trouble;
