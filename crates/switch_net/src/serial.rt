//! Turns on one thread.
ghost use Rattle.std.specs.Prelude.{◌≡◌, ◌<◌, ◌↔◌, length, IsTrue};
ghost use Rattle.run_laws.specs.Run.{last_round};
ghost use Rattle.run_laws.specs.LawfulPlans.{AreAllPlans};
ghost use Rattle.switch_net.specs.Building.{ArePlanned};
ghost use Rattle.switch_net.specs.Driving.{AreDrivers, AreSamePipes, HasStopped, HaveStopped};

use crate::planning::decide_due;
use pipe_driver::Driver;
use pipe_worker::Pipe;
use rand_core::utils::NextWord;
use rand_pcg::Lcg64Xsh32;
use round_plans::Planner;
use shard_rounds::Plan;
use std::sync::Wait;

/// Lets the pipes take turns until all have finished, in passes: in each pass the next word of the generator, modulo the number
/// of pipes, names the pipe that turns first, the others follow by number, and due plans are decided after the pass.
pub(crate) fn run_passes<R: Wait>(
    rt: &R,
    seed: u64,
    planner: &mut Planner<'_>,
    drivers: &mut [Driver<'_>],
    plans: &mut [Plan],
    round: u32,
)
    requires drivers { AreDrivers planner.old.run planner.old.plans drivers.old }
    requires plans { ArePlanned planner.old.plans (last_round planner.old.run) plans.old }
    requires round { round ≡ planner.old.run.settings.round }
    ensures run { planner.new.run ≡ planner.old.run }
    ensures drivers { AreDrivers planner.new.run planner.new.plans drivers.new }
    ensures plans { ArePlanned planner.new.plans (last_round planner.new.run) plans.new }
    ensures all { AreAllPlans planner.new.run planner.new.plans }
    ensures finished { HaveStopped drivers.new }
{
    let mut order = Lcg64Xsh32::new(seed, 54);
    for _ in rt.forever() {
        if is_done(planner, drivers) {
            return;
        }
        let first = order.next_word() as usize % drivers.len();
        pass(rt, drivers, first);
        decide_due(planner, drivers, plans, round);
    }
    unreachable!()
}

// Whether all plans are decided and all pipes have finished.
pub(crate) fn is_done(planner: &Planner<'_>, drivers: &[Driver<'_>]) -> bool
    ensures { IsTrue result ↔ AreAllPlans planner.now.run planner.now.plans
        × HaveStopped drivers.now }
{
    planner.are_all() && have_finished(drivers)
}

// Whether all pipes have finished.
fn have_finished(drivers: &[Driver<'_>]) -> bool
    ensures { IsTrue result ↔ HaveStopped drivers.now }
{
    for p in 0..drivers.len() {
        if !has_stopped(drivers[p].pipe()) {
            return false;
        }
    }
    true
}

// Whether a pipe has finished.
fn has_stopped(pipe: &Pipe<'_>) -> bool
    ensures { IsTrue result ↔ HasStopped pipe.now }
{
    pipe.finished()
}

// Lets each pipe take a turn, from one on and around.
fn pass<R: Wait>(rt: &R, drivers: &mut [Driver<'_>], first: usize)
    requires { first < length drivers.old }
    ensures { AreSamePipes drivers.old drivers.new }
{
    let count = drivers.len();
    for k in 0..count {
        drivers[(first + k) % count].part(rt);
    }
}
