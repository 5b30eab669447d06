//! What the turns of a loop take.

use mp5_words::NoMemory;
use std::rt::Clock;
use std::time::Instant;
use std::{fmt, io};

/// Why nothing was measured.
#[derive(Debug, Drop)]
pub enum Trouble {
    NoMemory,
    /// The clock or the output failed.
    Outside,
    /// A text that is to be measured isn't a program of the size that is wanted.
    Refused,
    /// Two ways of doing the same gave different words.
    Differs,
}

impl From<NoMemory> for Trouble {
    fn from(_error: NoMemory) -> Trouble {
        Trouble::NoMemory
    }
}

impl From<io::Error> for Trouble {
    fn from(_error: io::Error) -> Trouble {
        Trouble::Outside
    }
}

/// The nanoseconds that so many turns took together, and a sum of what they read, so that no turn is left out.
#[derive(Clone, Copy, Drop)]
pub struct Figure {
    nanoseconds: u64,
    turns: u64,
    sum: u32,
}

impl Figure {
    /// Before any turn.
    pub fn none() -> Figure {
        Figure {
            nanoseconds: 0,
            turns: 0,
            sum: 0,
        }
    }

    /// These turns, which began at `start`, have ended now.
    pub fn add(
        &mut self,
        clock: &impl Clock,
        start: Instant,
        turns: u32,
        sum: u32,
    ) -> Result<(), Trouble> {
        let passed = start.elapsed(clock)?.as_nanos();
        let passed = u64::try_from(passed).unwrap_or(u64::MAX);
        self.nanoseconds = self.nanoseconds.saturating_add(passed);
        self.turns = self.turns.saturating_add(turns as u64);
        self.read(sum);
        Ok(())
    }

    /// What was read of these turns after they had ended.
    pub fn read(&mut self, sum: u32) {
        self.sum = self.sum.wrapping_add(sum);
    }

    /// Whether the same was read of both.
    pub fn agrees_with(&self, other: &Figure) -> bool {
        self.sum == other.sum
    }
}

impl fmt::Display for Figure {
    fn fmt<W: fmt::Write>(&self, f: &mut fmt::Formatter<W>) -> fmt::Result {
        let tenths = self.nanoseconds.saturating_mul(10) / self.turns.max(1);
        let whole = tenths / 10;
        let rest = tenths % 10;
        let sum = self.sum;
        write!(f, "{whole}.{rest} ns (sum {sum})")
    }
}
