//! What pipes ask before they take a turn.

/// What a pipe asks before each turn in a thread of its own.
pub trait Gate {
    /// Whether a pipe may take its next turn, in a phase of a run. Phases are numbered from 0, and
    /// the number stays at 2^64 - 1 once it is reached.
    fn may_turn(&self, phase: u64, pipe: u32) -> bool;
}

/// A gate that always answers yes.
#[derive(Clone, Copy, Debug, Drop)]
pub struct OpenGate;

impl Gate for OpenGate {
    fn may_turn(&self, _phase: u64, _pipe: u32) -> bool {
        true
    }
}
