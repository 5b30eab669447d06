//! Turns of pipes beside each other.
ghost use Rattle.std.specs.Prelude.{◌≡◌, ◌<◌, ◌≤◌, ◌^◌, length};
ghost use Rattle.run_laws.specs.Run.{last_round};
ghost use Rattle.run_laws.specs.LawfulPlans.{AreAllPlans};
ghost use Rattle.pipe_driver.specs.Driver.{IsSamePipe};
ghost use Rattle.switch_net.specs.Building.{ArePlanned};
ghost use Rattle.switch_net.specs.Driving.{AreDrivers, AreSamePipes, HaveStopped};

use crate::gate::Gate;
use crate::planning::decide_due;
use crate::serial::is_done;
use crate::watch::Watch;
use pipe_driver::Driver;
use round_plans::Planner;
use shard_rounds::Plan;
use std::sync::Wait;
use std::thread;
use std::thread::Threads;

// The most turns of a pipe in a phase, and the most often that it is told no.
const MOST: u32 = 4096;

// After so many turns in vain, one after another, a pipe lets other threads run.
const IDLE: u32 = 32;

/// Lets the pipes take turns until all have finished, in phases: in each phase the pipes run
/// beside each other, and due plans are decided after it.
pub(crate) fn run_phases<R: Threads + Wait + Sync, G: Gate + Sync>(
    rt: &R,
    gate: &G,
    planner: &mut Planner<'_>,
    drivers: &mut [Driver<'_>],
    plans: &mut [Plan],
    round: u32,
)
    requires drivers { AreDrivers planner.old.run planner.old.plans drivers.old }
    requires plans { ArePlanned planner.old.plans (last_round planner.old.run) plans.old }
    requires round { round ≡ planner.old.run.settings.round }
    ensures run { planner.new.run ≡ planner.old.run }
    ensures drivers { AreDrivers planner.new.run planner.new.plans drivers.new }
    ensures plans { ArePlanned planner.new.plans (last_round planner.new.run) plans.new }
    ensures all { AreAllPlans planner.new.run planner.new.plans }
    ensures finished { HaveStopped drivers.new }
{
    let mut number = 0u64;
    for _ in rt.forever() {
        if is_done(planner, drivers) {
            return;
        }
        phase(rt, gate, number, drivers);
        decide_due(planner, drivers, plans, round);
        number = number.saturating_add(1);
    }
    unreachable!()
}

// Lets each pipe take its turns of a phase, each in a thread of its own.
fn phase<R: Threads + Wait + Sync, G: Gate + Sync>(
    rt: &R,
    gate: &G,
    number: u64,
    drivers: &mut [Driver<'_>],
)
    requires some { 0 < length drivers.old }
    requires few { length drivers.old < 2 ^ 32 }
    ensures { AreSamePipes drivers.old drivers.new }
{
    let pipes = drivers.len();
    let watch = Watch::new(pipes);
    let shared = &watch;
    thread::for_each_mut(
        rt,
        drivers,
        pipes,
        &|p, driver| { take_turns(rt, gate, number, p as u32, shared, driver) },
    );
}

// Lets a pipe take its turns of a phase. It ends early where no pipe can do anything.
fn take_turns<R: Wait, G: Gate>(
    rt: &R,
    gate: &G,
    phase: u64,
    pipe: u32,
    watch: &Watch,
    driver: &mut Driver<'_>,
)
    ensures { IsSamePipe driver.old.worker.pipe driver.new.worker.pipe }
{
    let mut noes = 0;
    let mut idle = 0;
    let mut told = 0;
    for _ in 0..MOST {
        noes = ask(gate, phase, pipe, noes);
        let moment = watch.moment();
        if driver.part(rt) {
            watch.moved();
            idle = 0;
        } else if can_end(watch, moment, &mut told) {
            return;
        } else {
            idle = pause(idle);
        }
    }
    watch.leave();
}

// Asks the gate until it says yes, or has said no as often as it may. Answers how often it has
// said no in this phase.
fn ask<G: Gate>(gate: &G, phase: u64, pipe: u32, noes: u32) -> u32 {
    for told in noes..MOST {
        if gate.may_turn(phase, pipe) {
            return told;
        }
        thread::yield_now();
    }
    MOST
}

// Whether no pipe can do anything, after a turn in vain that began after a moment. The turn is
// counted where the last one that was counted began after an earlier one.
fn can_end(watch: &Watch, moment: usize, told: &mut usize) -> bool {
    if *told != moment && watch.was_vain(moment) {
        *told = moment;
    }
    watch.is_still()
}

// Lets another thread run after some turns in vain, one after another. Answers how many there were,
// up to where it does so.
fn pause(idle: u32) -> u32 {
    if idle < IDLE {
        return idle + 1;
    }
    thread::yield_now();
    IDLE
}
