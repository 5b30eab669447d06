//! Makes flat code of guarded code: each line as instructions in single assignment and three
//! addresses, with each array indexed and loaded once, before the first line that touches it, and
//! stored once, behind all lines. `flatten` says exactly which instructions, and that they do what
//! the lines do over words, over the arrays behind each value and over what a header alone tells.
#![tactic(auto)]

mod arrays;
mod count;
mod expression;
mod fault;
mod lines;
mod output;
mod pass;
mod same;
mod sofar;

pub use fault::FlatFault;
pub use pass::{MAX_INSTRUCTIONS, flatten};
