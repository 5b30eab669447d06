//! The loads and the owners of one group.
ghost use Rattle.std.specs.Prelude.{◌≡◌, ◌<◌, ◌≤◌};

use mp5_words::NoMemory;
use shard_rounds::{Loads, Move, Owners, choose_into};
use std::alloc::Global;
use std::marker::Model;

/// The loads and the owners of the units of one group.
#[derive(Drop)]
pub struct Shares {
    loads: Loads,
    owners: Owners,
    units: u32,
    places: u32,
}

impl Model for Shares {
    ghost use Rattle.std.specs.Prelude.{◌≡◌, List, ℕ, sum, length};
    ghost use Rattle.shard_rounds.specs.Choice.{AreOverSame};
    ghost use Rattle.shard_rounds.specs.Holding.{row_at};

    ghost Value = { List (List ℕ) };

    ghost view = { λ s. s.loads };

    ghost invariant = { λ s. AreOverSame s.loads s.owners × (length s.loads ≡ 1) × (length (row_at s.loads 0) ≡ s.units) × (sum (row_at s.loads 0) ≡ s.places) };
}

impl Shares {
    /// So many units, of which none has a place.
    pub fn new(alloc: Global, units: u32, pipelines: u32) -> Result<Shares, NoMemory>
        requires unit { 1 ≤ units }
        requires units { units ≤ 65536 }
        requires some { 1 ≤ pipelines }
        requires pipelines { pipelines ≤ 8 }
    {
        let groups = [units];
        Ok(Shares {
            loads: Loads::start(alloc, &groups)?,
            owners: Owners::start(alloc, &groups, pipelines, 1)?,
            units,
            places: 0,
        })
    }

    /// One more place of a unit, where there is such a unit and room for a place.
    pub fn add(&mut self, unit: u32) {
        if unit < self.units && self.places < 262_144 {
            self.loads.add(0, unit);
            self.places += 1;
        }
    }

    /// The unit that moves by the next plan, or 0.
    pub fn choose(&self) -> u32 {
        let mut room = [NO_MOVE; 16];
        if choose_into(&self.loads, &self.owners, &mut room) == 0 {
            return 0;
        }
        room[0].unit
    }
}

// What stands in room that is not yet filled.
const NO_MOVE: Move = Move {
    group: 0,
    unit: 0,
    giver: 0,
    taker: 0,
};
