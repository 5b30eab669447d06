//! Rows that cross crates: the top call over stores and sinks in memory, with answers worked out by hand. Rows
//! that need no more than a program, a capture and what is printed are those of `tools/try-rows`.
#![tactic(auto)]

#[cfg(test)]
mod causes;
#[cfg(test)]
mod fixture;
#[cfg(test)]
mod gates;
#[cfg(test)]
mod runs;
