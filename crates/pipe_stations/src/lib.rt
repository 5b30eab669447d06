//! All stations of a pipe, one for each group of arrays of the code, and what is done over all of them:
//! announcing an arrival, and seeing how far they have come. What concerns one group goes to its
//! station, and the others stay as they are.
#![tactic(auto)]

mod stations;

pub use stations::Stations;
