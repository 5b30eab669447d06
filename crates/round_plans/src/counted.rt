//! A run, and the places of its first arrivals.
ghost use Rattle.std.specs.Prelude.{◌≡◌, ◌+◌, ◌*◌, ◌<◌, ◌≤◌, length, map, IfOk, All};
ghost use Rattle.code_forms.specs.Staged.{unit_count};
ghost use Rattle.shard_rounds.specs.Rounds.{AreUnits};
ghost use Rattle.run_laws.specs.Run.{run_of, arrivals, last_round};
ghost use Rattle.run_laws.specs.LawfulPlans.{loads_below};
ghost use Rattle.round_plans.specs.Counting.{IsWellFormed, ArePlaces, loads_with};

use capture_io::Capture;
use code_forms::StagedCode;
use mp5_words::{NoMemory, Settings};
use shard_rounds::Loads;
use std::alloc::Global;
use std::marker::Model;

/// A run whose first arrivals are counted: how many of them have their place in each unit.
#[derive(Drop)]
pub(crate) struct CountedRun<'a> {
    code: &'a StagedCode,
    capture: &'a Capture,
    settings: Settings,
    last_round: u32,
    loads: Loads,
    // how many arrivals are counted
    below: u32,
    // room for the header run
    slots: Vec<i32>,
}

impl<'a> Model for CountedRun<'a> {
    ghost use Rattle.std.specs.Prelude.{length};
    ghost use Rattle.run_laws.specs.Run.{run_of};
    ghost use Rattle.round_plans.specs.Counting.{Counted, AreCounted};

    ghost Value = { Counted };

    ghost view = { λ c. record { run = run_of c.code.now c.capture.now c.settings; below = c.below } };

    ghost invariant = { λ c. AreCounted (run_of c.code.now c.capture.now c.settings) c.last_round c.below c.loads (length c.slots.items) };
}

impl<'a> CountedRun<'a> {
    /// A run of which no arrival is counted. `units` has how many units each group has.
    pub(crate) fn new(
        alloc: Global,
        code: &'a StagedCode,
        capture: &'a Capture,
        settings: &Settings,
        units: &[u32],
    ) -> Result<CountedRun<'a>, NoMemory>
        requires wide { All (λ header. length header ≡ code.now.fields) capture.now }
        requires units { units.now ≡ map (unit_count code.now) code.now.groups }
        requires sizes { AreUnits units.now }
        ensures run { IfOk result (λ c. c.run ≡ run_of code.now capture.now settings.now) }
        ensures none { IfOk result (λ c. c.below ≡ 0) }
    {
        Ok(CountedRun {
            code,
            capture,
            settings: *settings,
            last_round: capture.count().saturating_sub(1) / settings.round,
            loads: Loads::start(alloc, units)?,
            below: 0,
            slots: vec![in alloc; 0; code.slots() as usize]?,
        })
    }

    /// How many pipes the run has.
    pub(crate) fn pipelines(&self) -> u32
        ensures { result ≡ self.now.run.settings.pipelines }
    {
        self.settings.pipelines
    }

    /// The last round.
    pub(crate) fn last_round(&self) -> u32
        ensures last { result ≡ last_round self.now.run }
        ensures laws { IsWellFormed self.now.run }
    {
        self.last_round
    }

    /// The first arrival of a round.
    pub(crate) fn round_start(&self, e: u32) -> u32
        requires { e ≤ last_round self.now.run }
        ensures { result ≡ e * self.now.run.settings.round }
    {
        e * self.settings.round
    }

    /// How many of the counted arrivals have their place in each unit.
    pub(crate) fn loads(&self) -> &Loads
        ensures loads { result.now ≡ loads_below self.now.run self.now.below }
        ensures laws { IsWellFormed self.now.run }
    {
        &self.loads
    }

    /// Counts all arrivals before this one.
    pub(crate) fn count_to(&mut self, end: u32)
        requires ahead { self.old.below ≤ end }
        requires within { end ≤ arrivals self.old.run }
        ensures { self.new ≡ record self.old { below = end } }
    {
        for t in self.below..end {
            self.count(t);
        }
    }

    // Counts the next arrival.
    fn count(&mut self, t: u32)
        requires next { t ≡ self.old.below }
        requires within { t < arrivals self.old.run }
        ensures { self.new ≡ record self.old { below = self.old.below + 1 } }
    {
        let mut places = [0; 16];
        self.code
            .places(self.capture.header(t), &mut self.slots, &mut places);
        add_places(&mut self.loads, &places);
        self.below += 1;
    }
}

// One more place in each group at which an arrival has one: 0 without a place, else 1 more than the unit.
fn add_places(loads: &mut Loads, places: &[u32; 16])
    requires { ArePlaces loads.old places.now }
    ensures { loads.new ≡ loads_with loads.old places.now }
{
    for g in 0..16usize {
        if places[g] > 0 {
            loads.add(g as u32, places[g] - 1);
        }
    }
}
