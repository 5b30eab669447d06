//! How many places each unit has.
ghost use Rattle.std.specs.Prelude.{◌≡◌, ◌<◌, ◌≤◌, length, map, replicate, slice_index, IfOk, sum};
ghost use Rattle.shard_rounds.specs.Rounds.{AreUnits};
ghost use Rattle.shard_rounds.specs.Holding.{row_at};
ghost use Rattle.shard_rounds.specs.Choice.{added, load, AreLoads};

use crate::row::Row;
use mp5_words::NoMemory;
use std::alloc::Global;
use std::marker::Model;

/// The number of places of each unit, seen as a list of counts for each group.
#[derive(Drop)]
pub struct Loads {
    counts: Vec<Row>,
}

impl Model for Loads {
    ghost use Rattle.std.specs.Prelude.{List, ℕ};
    ghost use Rattle.shard_rounds.specs.Choice.{AreLoads};

    ghost Value = { List (List ℕ) };

    ghost view = { λ l. l.counts.items };

    ghost invariant = { λ l. AreLoads l.counts.items };
}

impl Loads {
    /// No place of any unit.
    pub fn start(alloc: Global, units: &[u32]) -> Result<Loads, NoMemory>
        requires { AreUnits units.now }
        ensures { IfOk result (λ l. l ≡ map (λ n. replicate n 0) units.now) }
    {
        let mut counts = Vec::with_capacity(alloc, units.len())?;
        for g in 0..units.len() {
            counts.push_reserved(Row::zeros(alloc, units[g])?);
        }
        Ok(Loads { counts })
    }

    /// One more place of a unit.
    pub fn add(&mut self, g: u32, u: u32)
        requires group { g < length self.old }
        requires unit { u < length (row_at self.old g) }
        requires few { sum (row_at self.old g) < 262144 }
        ensures { self.new ≡ added self.old g u }
    {
        let count = self.counts[g as usize].at(u);
        self.counts[g as usize].set(u, count + 1);
    }

    /// How many places a unit has.
    pub fn at(&self, g: u32, u: u32) -> u32
        requires group { g < length self.now }
        requires unit { u < length (row_at self.now g) }
        ensures load { result ≡ load self.now g u }
        ensures laws { AreLoads self.now }
    {
        self.counts[g as usize].at(u)
    }

    // How many groups there are.
    pub(crate) fn groups(&self) -> usize
        ensures groups { result ≡ length self.now }
        ensures laws { AreLoads self.now }
    {
        self.counts.len()
    }

    // The counts of a group.
    pub(crate) fn row(&self, g: usize) -> &[u32]
        requires { g < length self.now }
        ensures { result.now ≡ row_at self.now g }
    {
        self.counts[g].as_slice()
    }
}
