//! The drivers of a new network.
ghost use Rattle.std.specs.Prelude.{◌≡◌, ◌+◌, ◌<◌, ◌≤◌, ◌++◌, ◌∷◌, [], OnOk, IfOk};
ghost use Rattle.pipe_messages.specs.Messages.{run_in};
ghost use Rattle.pipe_driver.specs.Driver.{IsNewLane};
ghost use Rattle.switch_net.specs.Building.{HasLanesFrom, AreLaid};
ghost use Rattle.switch_net.specs.Driving.{AreDrivers};

use mp5_words::NoMemory;
use packet_steps::RunData;
use pair_lane::{Receiver, Sender, pair};
use pipe_driver::Driver;
use pipe_messages::{LaneKey, Message};
use pipe_worker::Pipe;
use std::alloc::Global;
use std::snapshot::Snapshot;
use std::sync::Wait;
use switch_worker::Worker;

/// A driver for each pipe, to which nothing has happened, with a lane from each to each.
pub(crate) fn drivers<'a, R: Wait>(
    rt: &R,
    alloc: Global,
    run: &RunData<'a>,
) -> Result<Vec<Driver<'a>>, NoMemory>
    ensures { IfOk result (λ drivers. AreDrivers run.now [] drivers.items) }
{
    let mut workers = workers(alloc, run)?;
    for from in 0..pipelines(run) {
        lay_from(rt, alloc, run, from, &mut workers)?;
    }
    with_drivers(alloc, run, workers)
}

// How many pipes the run has.
fn pipelines(run: &RunData<'_>) -> u32
    ensures count { result ≡ run.now.settings.pipelines }
    ensures few { run.now.settings.pipelines ≤ 8 }
    ensures some { 1 ≤ run.now.settings.pipelines }
{
    run.settings.pipelines
}

// The worker of each pipe, without lanes.
fn workers<'a>(alloc: Global, run: &RunData<'a>) -> Result<Vec<Worker<'a>>, NoMemory>
    ensures { IfOk result (λ workers. AreLaid run.now 0 0 0 workers.items) }
{
    let pipelines = pipelines(run);
    let mut workers = Vec::with_capacity(alloc, pipelines as usize)?;
    for number in 0..pipelines {
        workers.push_reserved(worker(alloc, run, number)?);
    }
    Ok(workers)
}

// The worker of a pipe, without lanes.
fn worker<'a>(alloc: Global, run: &RunData<'a>, number: u32) -> Result<Worker<'a>, NoMemory>
    requires { number < run.now.settings.pipelines }
    ensures { IfOk result (HasLanesFrom run.now 0 0 0 number) }
{
    let pipe = Pipe::new(alloc, run.code, run.capture, &run.settings, number)?;
    Ok(Worker {
        pipe,
        to: Vec::new(alloc),
        from: Vec::new(alloc),
    })
}

// Lays the lanes from a pipe to each.
fn lay_from<R: Wait>(
    rt: &R,
    alloc: Global,
    run: &RunData<'_>,
    from: u32,
    workers: &mut [Worker<'_>],
) -> Result<(), NoMemory>
    requires there { from < run.now.settings.pipelines }
    requires laid { AreLaid run.now from 0 0 workers.old }
    ensures { OnOk result (AreLaid run.now (from + 1) 0 0 workers.new) }
{
    for to in 0..pipelines(run) {
        lay(rt, alloc, run, from, to, workers)?;
    }
    Ok(())
}

// Lays the lane from a pipe to another, or to itself.
fn lay<R: Wait>(
    rt: &R,
    alloc: Global,
    run: &RunData<'_>,
    from: u32,
    to: u32,
    workers: &mut [Worker<'_>],
) -> Result<(), NoMemory>
    requires from { from < run.now.settings.pipelines }
    requires to { to < run.now.settings.pipelines }
    requires laid { AreLaid run.now from to to workers.old }
    ensures { OnOk result (AreLaid run.now from (to + 1) (to + 1) workers.new) }
{
    let (sender, receiver) = lane(rt, alloc, run, from, to)?;
    give_sender(&mut workers[from as usize], sender)?;
    give_receiver(&mut workers[to as usize], receiver)
}

// Gives a worker its end of the lane to the next pipe.
fn give_sender(worker: &mut Worker<'_>, sender: Sender<Message>) -> Result<(), NoMemory>
    ensures { OnOk result (worker.new ≡ record worker.old { to = worker.old.to ++ sender ∷ [] }) }
{
    append(&mut worker.to, sender)
}

// Gives a worker its end of the lane from the next pipe.
fn give_receiver(worker: &mut Worker<'_>, receiver: Receiver<Message>) -> Result<(), NoMemory>
    ensures { OnOk result
        (worker.new ≡ record worker.old { from = worker.old.from ++ receiver ∷ [] }) }
{
    append(&mut worker.from, receiver)
}

// Appends an item to a list.
fn append<T: Drop>(list: &mut Vec<T>, item: T) -> Result<(), NoMemory>
    ensures { OnOk result (list.new.items ≡ list.old.items ++ item ∷ []) }
{
    match list.push(item) {
        Ok(()) => Ok(()),
        Err(_) => Err(NoMemory),
    }
}

// A new lane. It holds as many messages as may wait at its sender.
fn lane<R: Wait>(
    rt: &R,
    alloc: Global,
    run: &RunData<'_>,
    from: u32,
    to: u32,
) -> Result<(Sender<Message>, Receiver<Message>), NoMemory>
    ensures sender { IfOk result (λ ends. IsNewLane run.now from to ends.0) }
    ensures receiver { IfOk result (λ ends. IsNewLane run.now from to ends.1) }
{
    pair(rt, alloc, 2 * run.settings.window + 16, key(run, from, to))
}

// The key of a lane.
fn key(run: &RunData<'_>, from: u32, to: u32) -> LaneKey
    ensures run { run_in result ≡ run.now }
    ensures from { result.from ≡ from }
    ensures to { result.to ≡ to }
{
    LaneKey {
        code: Snapshot::of(run.code),
        capture: Snapshot::of(run.capture),
        settings: run.settings,
        from,
        to,
    }
}

// The drivers of workers whose lanes are all laid.
fn with_drivers<'a>(
    alloc: Global,
    run: &RunData<'a>,
    workers: Vec<Worker<'a>>,
) -> Result<Vec<Driver<'a>>, NoMemory>
    requires { AreLaid run.now run.now.settings.pipelines 0 0 workers.items }
    ensures { IfOk result (λ drivers. AreDrivers run.now [] drivers.items) }
{
    let mut drivers = Vec::with_capacity(alloc, workers.len())?;
    for worker in workers {
        drivers.push_reserved(Driver::new(alloc, worker)?);
    }
    Ok(drivers)
}
