//! A network, and its run.
ghost use Rattle.std.specs.Prelude.{◌≡◌, ◌≤◌, [], List, length, All, IfOk, vec_capacity};
ghost use Rattle.shard_rounds.specs.declared.plan.Move.{Move};
ghost use Rattle.code_forms.specs.Staged.{HasSizes};
ghost use Rattle.run_laws.specs.Run.{run_of};
ghost use Rattle.run_laws.specs.LawfulPlans.{AreAllPlans, owners_after};
ghost use Rattle.switch_worker.specs.Finished.{AreFinished, HaveHeard};
ghost use Rattle.switch_net.specs.Answer.{IsAnswer, IsEnded};
ghost use Rattle.switch_net.specs.Building.{HasRoom};
ghost use Rattle.switch_net.specs.Driving.{AreDrivers, HaveStopped};

use crate::answer::{Answer, with_room};
use crate::building::drivers;
use crate::gate::Gate;
use crate::parallel::run_phases;
use crate::serial::run_passes;
use capture_io::Capture;
use code_forms::StagedCode;
use mp5_words::{NoMemory, Settings};
use packet_steps::RunData;
use pipe_driver::Driver;
use round_plans::Planner;
use run_answer::{push_cells, push_counts, push_entries, write_packets};
use shard_rounds::Owners;
use std::alloc::Global;
use std::marker::Model;
use std::sync::Wait;
use std::thread::Threads;
use switch_worker::Worker;

/// A switch before its run: its pipes with a lane from each to each, and all memory that the run takes. Seen as the run.
#[derive(Drop)]
pub struct Network<'a> {
    run: RunData<'a>,
    planner: Planner<'a>,
    drivers: Vec<Driver<'a>>,
    answer: Answer,
    // room for the workers of the end
    workers: Vec<Worker<'a>>,
}

impl<'a> Model for Network<'a> {
    ghost use Rattle.std.specs.Prelude.{◌≡◌, ◌≤◌, [], vec_capacity};
    ghost use Rattle.run_laws.specs.Run.{Run};
    ghost use Rattle.switch_net.specs.Driving.{IsNetwork};

    ghost Value = { Run };

    ghost view = { λ n. n.run };

    ghost invariant = { λ n. IsNetwork n.run n.planner n.drivers.items n.answer × (n.workers.items ≡ []) × (n.run.settings.pipelines ≤ vec_capacity n.workers) };
}

/// What stands at the end of a run: the answer, and the workers of its pipes by number, each with its ends of the lanes.
#[derive(Drop)]
pub struct Ended<'a> {
    pub answer: Answer,
    pub workers: Vec<Worker<'a>>,
}

impl<'a> Network<'a> {
    /// The network of a run before its first turn. Takes all memory that the run takes.
    pub fn build<R: Wait>(
        rt: &R,
        alloc: Global,
        code: &'a StagedCode,
        capture: &'a Capture,
        settings: &Settings,
    ) -> Result<Network<'a>, NoMemory>
        requires wide { All (λ header. length header ≡ code.now.fields) capture.now }
        ensures { IfOk result (λ n. n ≡ run_of code.now capture.now settings.now) }
    {
        let run = RunData::new(code, capture, settings);
        let answer = with_room(alloc, &run)?;
        let planner = Planner::new(alloc, code, capture, settings)?;
        let drivers = drivers(rt, alloc, &run)?;
        let workers = Vec::with_capacity(alloc, settings.pipelines as usize)?;
        Ok(Network {
            run,
            planner,
            drivers,
            answer,
            workers,
        })
    }

    /// How the switch is run.
    pub(crate) fn settings(&self) -> Settings
        ensures { result ≡ self.now.settings }
    {
        self.run.settings
    }

    /// Runs the pipes beside each other, each in a thread of its own, until each has finished. Before each turn a pipe asks the
    /// gate. The answer doesn't depend on what the gate says, nor on how the threads run. Takes no memory but for its threads.
    pub fn run<R: Threads + Wait + Sync, G: Gate + Sync>(self, rt: &R, gate: &G) -> Ended<'a>
        ensures { IsEnded self.entry result }
    {
        let Network {
            run,
            mut planner,
            mut drivers,
            mut answer,
            workers,
        } = self;
        let round = run.settings.round;
        run_phases(
            rt,
            gate,
            &mut planner,
            &mut drivers,
            &mut answer.plans,
            round,
        );
        end(&run, planner.owners(), drivers, answer, workers)
    }

    /// Runs the pipes on one thread until each has finished, in an order that the seed names. The answer doesn't depend on it.
    /// Takes no memory.
    pub fn run_serial<R: Wait>(self, rt: &R, seed: u64) -> Ended<'a>
        ensures { IsEnded self.entry result }
    {
        let Network {
            run,
            mut planner,
            mut drivers,
            mut answer,
            workers,
        } = self;
        let round = run.settings.round;
        run_passes(
            rt,
            seed,
            &mut planner,
            &mut drivers,
            &mut answer.plans,
            round,
        );
        end(&run, planner.owners(), drivers, answer, workers)
    }
}

// What stands at the end, once all pipes have finished.
fn end<'a>(
    run: &RunData<'a>,
    owners: &Owners,
    drivers: Vec<Driver<'a>>,
    mut answer: Answer,
    workers: Vec<Worker<'a>>,
) -> Ended<'a>
    requires owners { owners.now ≡ owners_after run.now owners.now.plans }
    requires plans { AreAllPlans run.now owners.now.plans }
    requires drivers { AreDrivers run.now owners.now.plans drivers.items }
    requires finished { HaveStopped drivers.items }
    requires answer { HasRoom run.now owners.now.plans answer }
    requires empty { workers.items ≡ [] }
    requires room { run.now.settings.pipelines ≤ vec_capacity workers }
    ensures { IsEnded run.now result }
{
    let workers = workers_of(run, drivers, workers);
    fill(run, &workers, owners, &mut answer);
    Ended { answer, workers }
}

// The workers of drivers, in a list that has room for them.
fn workers_of<'a>(
    run: &RunData<'a>,
    mut drivers: Vec<Driver<'a>>,
    mut workers: Vec<Worker<'a>>,
) -> Vec<Worker<'a>>
    requires drivers { (plans : List (List Move)) × AreDrivers run.now plans drivers.items }
    requires finished { HaveStopped drivers.items }
    requires empty { workers.items ≡ [] }
    requires room { run.now.settings.pipelines ≤ vec_capacity workers }
    ensures finished { AreFinished run.now result.items }
    ensures heard { HaveHeard run.now result.items }
{
    let _ = run;
    while !drivers.is_empty() {
        workers.push_reserved(drivers.remove(0).into_worker());
    }
    workers
}

// Reads the answer off the workers.
fn fill(run: &RunData<'_>, workers: &[Worker<'_>], owners: &Owners, answer: &mut Answer)
    requires finished { AreFinished run.now workers.now }
    requires owners { owners.now ≡ owners_after run.now owners.now.plans }
    requires plans { AreAllPlans run.now owners.now.plans }
    requires room { HasRoom run.now owners.now.plans answer.old }
    ensures { IsAnswer run.now answer.new }
{
    prove!(groups(run) <= 16);
    write_packets(run, workers, &mut answer.packets);
    push_cells(run, workers, owners, &mut answer.cells);
    push_counts(run, workers, &mut answer.counts);
    push_entries(run, workers, &mut answer.by, &mut answer.touched);
}

// How many groups the code of a run has.
fn groups(run: &RunData<'_>) -> u32
    ensures count { result ≡ length run.now.code.groups }
    ensures few { length run.now.code.groups ≤ 16 }
    ensures sizes { HasSizes run.now.code }
{
    run.code.groups()
}
