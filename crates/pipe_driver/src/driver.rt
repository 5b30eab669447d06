//! A driver.
ghost use Rattle.std.specs.Prelude.{◌≡◌, ◌<◌, ◌++◌, ◌∷◌, [], ℕ, length, slice_index_or, All, IfOk, None};
ghost use Rattle.run_laws.specs.LawfulPlans.{AreLawful};
ghost use Rattle.pipe_stations.specs.RowSteps.{IsStationFinished};
ghost use Rattle.switch_worker.specs.Worker.{LaneEnd};
ghost use Rattle.switch_worker.specs.Finished.{IsHeard};
ghost use Rattle.pipe_driver.specs.Driver.{IsDriver, IsNewWorker, IsSamePipe};

use crate::hearing::hear_all;
use crate::telling::tell_all;
use crate::turning::turns;
use mp5_words::NoMemory;
use pipe_messages::Message;
use pipe_worker::Pipe;
use shard_rounds::Plan;
use std::alloc::Global;
use std::marker::Model;
use std::sync::Wait;
use switch_worker::Worker;

/// A worker with the messages in its hands: for each lane at most one, which is on its way between
/// the pipe and the lane.
#[derive(Drop)]
pub struct Driver<'a> {
    worker: Worker<'a>,
    // taken out for each pipe and not yet sent
    unsent: Vec<Option<Message>>,
    // received from each pipe and not yet taken in
    held: Vec<Option<Message>>,
}

impl<'a> Model for Driver<'a> {
    ghost use Rattle.pipe_driver.specs.Driver.{Driver, IsDriver};

    ghost Value = { Driver };

    ghost view = { λ d. record { worker = d.worker; unsent = d.unsent.items; held = d.held.items } };

    ghost invariant = { λ d. IsDriver record { worker = d.worker; unsent = d.unsent.items; held = d.held.items } };
}

impl<'a> Driver<'a> {
    /// The driver of a worker to which nothing has happened yet.
    pub fn new(alloc: Global, worker: Worker<'a>) -> Result<Driver<'a>, NoMemory>
        requires { IsNewWorker worker.pipe.run worker.pipe.pipe worker }
        ensures { IfOk result (λ d. d.worker ≡ worker.entry) }
    {
        let pipes = worker.to.len();
        Ok(Driver {
            worker,
            unsent: no_messages(alloc, pipes)?,
            held: no_messages(alloc, pipes)?,
        })
    }

    /// One turn: takes in what came over the lanes and for which there is room, does own events
    /// while one is ready, and sends what waits, as far as the lanes have room. Tells whether it
    /// did an own event. Takes no memory.
    pub fn part<R: Wait>(&mut self, rt: &R) -> bool
        ensures { IsSamePipe self.old.worker.pipe self.new.worker.pipe }
    {
        let worker = &mut self.worker;
        hear_all(rt, &mut worker.pipe, &mut worker.from, &mut self.held);
        let did = turns(&mut worker.pipe);
        tell_all(rt, &mut worker.pipe, &mut worker.to, &mut self.unsent);
        did
    }

    /// Learns the next plan of the run. Takes no memory.
    pub fn learn_plan(&mut self, plan: &Plan)
        requires { AreLawful self.old.worker.pipe.run
            (self.old.worker.pipe.owners.plans ++ plan.now.moves.items ∷ []) }
        ensures { self.new ≡ record self.old {
          worker = record self.old.worker {
            pipe = record self.old.worker.pipe {
              owners = record self.old.worker.pipe.owners {
                plans = self.old.worker.pipe.owners.plans ++ plan.now.moves.items ∷ [];
              };
            };
          };
        } }
    {
        self.worker.pipe.learn_plan(plan);
    }

    /// The pipe.
    pub fn pipe(&self) -> &Pipe<'a>
        ensures pipe { result.now ≡ self.now.worker.pipe }
        ensures laws { IsDriver self.now }
    {
        &self.worker.pipe
    }

    /// The worker, without the messages in its hands. Where its pipe has finished at each group,
    /// and there is one, all phantoms were received on each of its lanes.
    pub fn into_worker(self) -> Worker<'a>
        ensures worker { result ≡ self.entry.worker }
        ensures ends { length result.from ≡ result.pipe.run.settings.pipelines }
        ensures heard { All IsStationFinished result.pipe.row.stations → (p : ℕ) (end : LaneEnd) →
            p < result.pipe.run.settings.pipelines →
            IsHeard result.pipe.run p result.pipe.pipe (slice_index_or result.from p end) }
    {
        self.worker
    }
}

// No message for so many lanes.
fn no_messages(alloc: Global, lanes: usize) -> Result<Vec<Option<Message>>, NoMemory>
    ensures size { IfOk result (λ hands. length hands.items ≡ lanes) }
    ensures none { IfOk result (λ hands. (k : ℕ) → k < lanes
        → slice_index_or hands.items k None ≡ None) }
{
    let mut hands = Vec::with_capacity(alloc, lanes)?;
    for _ in 0..lanes {
        hands.push_reserved(None);
    }
    Ok(hands)
}
