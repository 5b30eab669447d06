//! The codelets of flat code: its instructions in classes, where two are of one class if each depends on the other,
//! directly or through others. A codelet with more than one instruction has one of an array, so which of sixteen
//! arrays an instruction depends on, and which depend on it, tells its class.
#![tactic(auto)]

mod classes;
mod keys;

pub use classes::codelets;
