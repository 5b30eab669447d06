//! The owners of the units.
ghost use Rattle.std.specs.Prelude.{◌≡◌, ◌+◌, ◌*◌, ◌^◌, ◌<◌, ◌≤◌, ℕ, List, [], ◌∷◌, ◌++◌, length, find, option_map, sum, IfOk, slice_index, slice_index_or, slice_set, All, replicate};
ghost use Rattle.shard_rounds.specs.declared.plan.Move.{Move};
ghost use Rattle.shard_rounds.specs.Rounds.{unmoved, owner, owner_now, IsUnit, IsPlan, AreUnits, IsTable};
ghost use Rattle.shard_rounds.specs.Choice.{owners_of};
ghost use Rattle.shard_rounds.specs.Holding.{first_row, moved_rows, concerns, HasUnit};

use crate::plan::{Move, Plan};
use crate::row::Row;
use mp5_words::NoMemory;
use std::alloc::{AllocError, Global};
use std::marker::Model;

/// The owners of all units, seen as the units, the number of pipes and the plans that were applied.
#[derive(Drop)]
pub struct Owners {
    units: Vec<u32>,
    pipelines: u32,
    room: u32,
    // the owner of each unit now, by group
    rows: Vec<Row>,
    // the moves of all plans, one plan after another, and how many each has
    log: Vec<Move>,
    sizes: Vec<u32>,
}

impl Model for Owners {
    ghost use Rattle.std.specs.Prelude.{vec_capacity};
    ghost use Rattle.shard_rounds.specs.Rounds.{OwnerTable};
    ghost use Rattle.shard_rounds.specs.Holding.{cut, Holds};

    ghost Value = { OwnerTable };

    ghost view = { λ o. record { units = o.units.items; pipelines = o.pipelines; room = o.room; plans = cut o.sizes.items o.log.items } };

    ghost invariant = { λ o. Holds record { units = o.units.items; pipelines = o.pipelines; room = o.room; plans = cut o.sizes.items o.log.items } o.rows.items o.log.items o.sizes.items (vec_capacity o.log) (vec_capacity o.sizes) };
}

impl Owners {
    /// The owners before any move: unit `u` of group `g` belongs to pipe `(u + g) mod pipelines`. Room is taken
    /// for so many plans.
    pub fn start(
        alloc: Global,
        units: &[u32],
        pipelines: u32,
        plans: u32,
    ) -> Result<Owners, NoMemory>
        requires units { AreUnits units.now }
        requires some { 1 ≤ pipelines }
        requires pipelines { pipelines ≤ 8 }
        requires plans { plans < 262144 }
        ensures { IfOk result (λ o. o ≡ unmoved units.now pipelines plans) }
    {
        let mut rows = Vec::with_capacity(alloc, units.len())?;
        for g in 0..units.len() {
            rows.push_reserved(first_row(alloc, units[g], pipelines, g as u32)?);
        }
        Ok(Owners {
            units: Vec::from_slice(alloc, units)?,
            pipelines,
            room: plans,
            rows,
            log: Vec::with_capacity(alloc, plans as usize * units.len())?,
            sizes: Vec::with_capacity(alloc, plans as usize)?,
        })
    }

    /// The owner of a unit after all plans that were applied.
    #[inline]
    pub fn of(&self, g: u32, u: u32) -> u32
        requires { IsUnit self.now.units g u }
        ensures owner { result ≡ owner_now self.now g u }
        ensures pipe { result < self.now.pipelines }
        ensures laws { IsTable self.now }
    {
        self.rows[g as usize].at(u)
    }

    /// The owner of a unit after the first `e` plans, which is its owner in round `e`. Takes a time in
    /// proportion to the moves of the plans after them.
    pub fn at(&self, e: u32, g: u32, u: u32) -> u32
        requires applied { e ≤ length self.now.plans }
        requires unit { IsUnit self.now.units g u }
        ensures owner { result ≡ owner self.now.pipelines self.now.plans e g u }
        ensures pipe { result < self.now.pipelines }
        ensures laws { IsTable self.now }
    {
        let recent = total(&self.sizes[e as usize..]);
        let start = self.log.len() - recent as usize;
        match first_giver(&self.log[start..], g, u) {
            Some(giver) => giver,
            None => self.rows[g as usize].at(u),
        }
    }

    /// How many plans were applied.
    pub fn applied(&self) -> u32
        ensures { result ≡ length self.now.plans }
    {
        self.sizes.len() as u32
    }

    /// The moves of plan `e`, which is the one after the first `e`. Takes a time in proportion to the plans
    /// after it.
    pub fn plan(&self, e: u32) -> &[Move]
        requires { e < length self.now.plans }
        ensures { result.now ≡ slice_index_or self.now.plans e [] }
    {
        let later = &self.sizes[e as usize..];
        let start = self.log.len() - total(later) as usize;
        let count = self.sizes[e as usize] as usize;
        &self.log[start..start + count]
    }

    /// Applies the next plan.
    pub fn apply(&mut self, plan: &Plan)
        requires room { length self.old.plans < self.old.room }
        requires plan { IsPlan self.old plan.now.moves.items }
        ensures { self.new ≡ record self.old { plans = self.old.plans ++ plan.now.moves.items ∷ [] } }
    {
        move_units(&mut self.rows, &plan.moves);
        match self.log.extend_from_slice(&plan.moves) {
            Ok(()) => {}
            Err(AllocError) => unreachable!(),
        }
        self.sizes.push_reserved(plan.moves.len() as u32);
    }

    // How many pipes there are.
    pub(crate) fn pipes(&self) -> u32
        ensures pipes { result ≡ self.now.pipelines }
        ensures laws { IsTable self.now }
    {
        self.pipelines
    }

    // The owners of a group now.
    pub(crate) fn row(&self, g: usize) -> &[u32]
        requires { g < length self.now.units }
        ensures { result.now ≡ owners_of self.now g }
    {
        self.rows[g].as_slice()
    }
}

// The sum of the sizes.
fn total(sizes: &[u32]) -> u32
    requires { sum sizes.now < 2 ^ 32 }
    ensures { result ≡ sum sizes.now }
{
    sizes.iter().sum()
}

// The owners of a group before any move.
fn first_row(alloc: Global, units: u32, pipelines: u32, g: u32) -> Result<Row, NoMemory>
    requires units { units ≤ 65536 }
    requires some { 1 ≤ pipelines }
    requires g { g < 16 }
    ensures { IfOk result (λ row. row ≡ first_row pipelines g units) }
{
    let mut row = Row::with_room(alloc, units)?;
    for u in 0..units {
        row.push((u + g) % pipelines)?;
    }
    Ok(row)
}

// The giver of the first of the moves that moves the unit.
fn first_giver(moves: &[Move], g: u32, u: u32) -> Option<u32>
    ensures { result ≡ option_map (λ (m : Move). m.giver) (find (concerns g u) moves.now) }
{
    for m in moves {
        if m.group == g && m.unit == u {
            return Some(m.giver);
        }
    }
    None
}

// Gives each moved unit to its taker.
fn move_units(rows: &mut [Row], moves: &[Move])
    requires { All (HasUnit rows.old) moves.now }
    ensures { rows.new ≡ moved_rows rows.old moves.now }
{
    for m in moves {
        rows[m.group as usize].set(m.unit, m.taker);
    }
}
