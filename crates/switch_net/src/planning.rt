//! Plans that are due.
ghost use Rattle.std.specs.Prelude.{◌≡◌, ◌<◌, ◌≤◌, ◌↔◌, ◌++◌, ◌∷◌, [], ℕ, List, length, slice_index_or, vec_capacity, IsTrue};
ghost use Rattle.shard_rounds.specs.declared.plan.Move.{Move};
ghost use Rattle.run_laws.specs.Run.{Run, last_round};
ghost use Rattle.pipe_driver.specs.Driver.{Driver as DriverHere};
ghost use Rattle.switch_net.specs.Building.{ArePlanned};
ghost use Rattle.switch_net.specs.Driving.{AreDrivers, IsDue, HaveEntered};

use pipe_driver::Driver;
use pipe_worker::Pipe;
use round_plans::Planner;
use shard_rounds::Plan;

/// Decides each plan that is due, and lets every pipe learn it.
pub(crate) fn decide_due(
    planner: &mut Planner<'_>,
    drivers: &mut [Driver<'_>],
    plans: &mut [Plan],
    round: u32,
)
    requires drivers { AreDrivers planner.old.run planner.old.plans drivers.old }
    requires plans { ArePlanned planner.old.plans (last_round planner.old.run) plans.old }
    requires round { round ≡ planner.old.run.settings.round }
    ensures run { planner.new.run ≡ planner.old.run }
    ensures drivers { AreDrivers planner.new.run planner.new.plans drivers.new }
    ensures plans { ArePlanned planner.new.plans (last_round planner.new.run) plans.new }
{
    for e in planner.decided() as usize..plans.len() {
        if !is_due(planner, drivers, round) {
            return;
        }
        decide(planner, drivers, &mut plans[e]);
    }
}

// Whether a plan is due.
fn is_due(planner: &Planner<'_>, drivers: &[Driver<'_>], round: u32) -> bool
    requires drivers { AreDrivers planner.now.run planner.now.plans drivers.now }
    requires round { round ≡ planner.now.run.settings.round }
    ensures { IsTrue result ↔ IsDue planner.now drivers.now }
{
    !planner.are_all() && have_entered(drivers, u64::from(planner.decided()) * u64::from(round))
}

// Whether all arrivals below one have entered.
fn have_entered(drivers: &[Driver<'_>], end: u64) -> bool
    requires { (run : Run) × (plans : List (List Move)) × AreDrivers run plans drivers.now }
    ensures { IsTrue result ↔ ((i : ℕ) (d : DriverHere) → i < length drivers.now
        → HaveEntered (slice_index_or drivers.now i d).worker.pipe end) }
{
    let pipelines = drivers.len() as u64;
    for i in 0..drivers.len() {
        if !has_entered(drivers[i].pipe(), i as u64, pipelines, end) {
            return false;
        }
    }
    true
}

// Whether all own arrivals of a pipe below one have entered.
fn has_entered(pipe: &Pipe<'_>, number: u64, pipelines: u64, end: u64) -> bool
    requires number { number ≡ pipe.now.pipe }
    requires pipelines { pipelines ≡ pipe.now.run.settings.pipelines }
    ensures { IsTrue result ↔ HaveEntered pipe.now end }
{
    number + pipelines * u64::from(pipe.entered()) >= end
}

// Decides the next plan, and lets every pipe learn it.
fn decide(planner: &mut Planner<'_>, drivers: &mut [Driver<'_>], plan: &mut Plan)
    requires more { length planner.old.plans < last_round planner.old.run }
    requires drivers { AreDrivers planner.old.run planner.old.plans drivers.old }
    requires empty { plan.old.moves.items ≡ [] }
    requires room { 16 ≤ vec_capacity plan.old.moves }
    ensures decided { planner.new ≡
        record planner.old { plans = planner.old.plans ++ plan.new.moves.items ∷ [] } }
    ensures drivers { AreDrivers planner.new.run planner.new.plans drivers.new }
{
    planner.decide(plan);
    for p in 0..drivers.len() {
        drivers[p].learn_plan(plan);
    }
}
