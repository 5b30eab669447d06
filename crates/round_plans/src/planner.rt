//! The planner.
ghost use Rattle.std.specs.Prelude.{◌≡◌, ◌<◌, ◌≤◌, ◌↔◌, [], ◌∷◌, ◌++◌, length, map, take, IfOk, IsTrue, All, vec_capacity};
ghost use Rattle.code_forms.specs.Staged.{unit_count};
ghost use Rattle.shard_rounds.specs.Rounds.{AreUnits, IsPlan};
ghost use Rattle.run_laws.specs.Run.{last_round};
ghost use Rattle.run_laws.specs.LawfulPlans.{AreLawful, owners_after};
ghost use Rattle.round_plans.specs.Planning.{no_plans, IsPlanner, IsNextChoice};

use crate::counted::CountedRun;
use capture_io::Capture;
use code_forms::StagedCode;
use mp5_words::{NoMemory, Settings};
use shard_rounds::{Move, Owners, Plan, choose_into};
use std::alloc::{AllocError, Global};
use std::marker::Model;

/// The plans of a run, decided one after another: the one before round `e + 1` is the choice by the owners of
/// round `e` and by the places of all arrivals before round `e`. Contracts see it as the run and the plans so
/// far.
#[derive(Drop)]
pub struct Planner<'a> {
    // counted as far as the last plan wanted
    run: CountedRun<'a>,
    // after all plans so far
    owners: Owners,
}

impl<'a> Model for Planner<'a> {
    ghost use Rattle.round_plans.specs.Planning.{Plans, IsPlanner};

    ghost Value = { Plans };

    ghost view = { λ p. record { run = p.run.run; plans = p.owners.plans } };

    ghost invariant = { λ p. IsPlanner p.run p.owners };
}

impl<'a> Planner<'a> {
    /// A run before any plan.
    pub fn new(
        alloc: Global,
        code: &'a StagedCode,
        capture: &'a Capture,
        settings: &Settings,
    ) -> Result<Planner<'a>, NoMemory>
        requires wide { All (λ header. length header ≡ code.now.fields) capture.now }
        ensures { IfOk result (λ p. p ≡ no_plans code.now capture.now settings.now) }
    {
        let units = unit_counts(alloc, code)?;
        let run = CountedRun::new(alloc, code, capture, settings, &units)?;
        let owners = Owners::start(alloc, &units, settings.pipelines, run.last_round())?;
        Ok(Planner { run, owners })
    }

    /// How many plans are decided.
    pub fn decided(&self) -> u32
        ensures count { result ≡ length self.now.plans }
        ensures laws { AreLawful self.now.run self.now.plans }
    {
        self.owners.applied()
    }

    /// Whether all plans are decided: there is one before each round but the first.
    pub fn are_all(&self) -> bool
        ensures all { IsTrue result ↔ (length self.now.plans ≡ last_round self.now.run) }
        ensures laws { AreLawful self.now.run self.now.plans }
    {
        self.owners.applied() == self.run.last_round()
    }

    /// The owners after all plans that are decided.
    pub fn owners(&self) -> &Owners
        ensures owners { result.now ≡ owners_after self.now.run self.now.plans }
        ensures laws { AreLawful self.now.run self.now.plans }
    {
        &self.owners
    }

    /// Decides the next plan and writes its moves into `plan`, which has room for them. Counts the places of
    /// the arrivals that it looks at, so all plans together look at each arrival once; at none, where there is
    /// one pipe. Takes no memory.
    pub fn decide(&mut self, plan: &mut Plan)
        requires more { length self.old.plans < last_round self.old.run }
        requires empty { plan.old.moves.items ≡ [] }
        requires room { 16 ≤ vec_capacity plan.old.moves }
        ensures decided { self.new ≡
            record self.old { plans = self.old.plans ++ plan.new.moves.items ∷ [] } }
        ensures lawful { AreLawful self.new.run self.new.plans }
        ensures room { vec_capacity plan.old.moves ≤ vec_capacity plan.new.moves }
    {
        let mut moves = [NO_MOVE; 16];
        let count = choose(&mut self.run, &self.owners, &mut moves);
        fill(plan, &moves[..count]);
        self.owners.apply(plan);
    }
}

// Chooses the moves of the next plan into room, and gives their number. Counts the places of the arrivals that
// the choice looks at. With one pipe nothing moves, whatever the places are.
fn choose(run: &mut CountedRun<'_>, owners: &Owners, room: &mut [Move; 16]) -> usize
    requires planner { IsPlanner run.old owners.now }
    requires more { length owners.now.plans < last_round run.old.run }
    ensures count { result ≤ 16 }
    ensures run { run.new.run ≡ run.old.run }
    ensures planner { IsPlanner run.new owners.now }
    ensures choice { IsNextChoice run.old.run owners.now (take result room.new) }
    ensures plan { IsPlan owners.now (take result room.new) }
{
    if run.pipelines() == 1 {
        return 0;
    }
    let end = run.round_start(owners.applied());
    run.count_to(end);
    choose_into(run.loads(), owners, room)
}

// What stands in room that is not yet filled.
const NO_MOVE: Move = Move {
    group: 0,
    unit: 0,
    giver: 0,
    taker: 0,
};

// Writes moves into a plan that has none.
fn fill(plan: &mut Plan, moves: &[Move])
    requires empty { plan.old.moves.items ≡ [] }
    requires room { length moves.now ≤ vec_capacity plan.old.moves }
    ensures moves { plan.new.moves.items ≡ moves.now }
    ensures room { vec_capacity plan.old.moves ≤ vec_capacity plan.new.moves }
{
    match plan.moves.extend_from_slice(moves) {
        Ok(()) => {}
        Err(AllocError) => unreachable!(),
    }
}

// How many units each group has.
fn unit_counts(alloc: Global, code: &StagedCode) -> Result<Vec<u32>, NoMemory>
    ensures counts { IfOk result (λ units.
        units.items ≡ map (unit_count code.now) code.now.groups) }
    ensures units { IfOk result (λ units. AreUnits units.items) }
{
    let mut units = Vec::with_capacity(alloc, code.groups() as usize)?;
    for g in 0..code.groups() {
        units.push_reserved(code.units(g));
    }
    Ok(units)
}
