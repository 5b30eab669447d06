//! The compiler as one: from the text of a program to its staged code, which has the source's meaning, groups and
//! places.
#![tactic(auto)]

mod compiled;
mod compiling;
mod fault;
mod passes;

pub use compiled::Compiled;
pub use compiling::compile;
pub use fault::ProgramFault;
