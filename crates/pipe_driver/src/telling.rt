//! Messages that go over a lane.
ghost use Rattle.std.specs.Prelude.{◌≡◌, ◌<◌, [], length, None, IfSome, IfNone};
ghost use Rattle.pipe_worker.specs.Pipe.{waiting};
ghost use Rattle.pipe_driver.specs.Driver.{IsSender};
ghost use Rattle.pipe_driver.specs.Turning.{IsForLane, IsTakenOut, Tells, TellsAll, AreSenders};

use crate::turning::pipes;
use pair_lane::Sender;
use pipe_messages::Message;
use pipe_worker::Pipe;
use std::sync::Wait;

// The most messages that are sent on one lane at a time.
const MOST: u32 = 4096;

// Sends, over each lane, what waits and for which the lane has room.
pub(crate) fn tell_all<R: Wait>(
    rt: &R,
    pipe: &mut Pipe<'_>,
    lanes: &mut [Sender<Message>],
    unsent: &mut [Option<Message>],
)
    requires { AreSenders pipe.old lanes.old unsent.old }
    ensures lanes { AreSenders pipe.new lanes.new unsent.new }
    ensures tells { TellsAll pipe.old pipe.new }
{
    for to in 0..pipes(pipe, lanes.len()) {
        tell(
            rt,
            pipe,
            to,
            &mut lanes[to as usize],
            &mut unsent[to as usize],
        );
    }
}

// Sends, over one lane, what waits and for which the lane has room.
fn tell<R: Wait>(
    rt: &R,
    pipe: &mut Pipe<'_>,
    to: u32,
    lane: &mut Sender<Message>,
    unsent: &mut Option<Message>,
)
    requires lane { IsSender pipe.old to lane.old unsent.old }
    requires to { to < pipe.old.run.settings.pipelines }
    ensures lane { IsSender pipe.new to lane.new unsent.new }
    ensures tells { Tells to pipe.old pipe.new }
{
    for _ in 0..MOST {
        if !tell_one(rt, pipe, to, lane, unsent) {
            return;
        }
    }
}

// Sends the next message for a pipe, if there is one and room for it.
fn tell_one<R: Wait>(
    rt: &R,
    pipe: &mut Pipe<'_>,
    to: u32,
    lane: &mut Sender<Message>,
    unsent: &mut Option<Message>,
) -> bool
    requires lane { IsSender pipe.old to lane.old unsent.old }
    requires to { to < pipe.old.run.settings.pipelines }
    ensures lane { IsSender pipe.new to lane.new unsent.new }
    ensures tells { Tells to pipe.old pipe.new }
{
    let Some(message) = next_for(pipe, to, unsent) else {
        return false;
    };
    match lane.send(rt, message) {
        Ok(()) => true,
        Err(full) => {
            *unsent = Some(full.item);
            false
        }
    }
}

// The message that is unsent, or else the first that waits for a pipe.
fn next_for(pipe: &mut Pipe<'_>, to: u32, unsent: &mut Option<Message>) -> Option<Message>
    requires { to < pipe.old.run.settings.pipelines }
    ensures message { IfSome result (λ m. IsForLane pipe.old pipe.new to m unsent.old) }
    ensures hand { unsent.new ≡ None }
    ensures none { IfNone result (unsent.old ≡ None) }
    ensures out { IfNone result (IsTakenOut pipe.old pipe.new to) }
    ensures empty { IfNone result (waiting pipe.old to ≡ []) }
{
    match unsent.take() {
        Some(message) => Some(message),
        None => first_out(pipe, to),
    }
}

// The first message that waits for a pipe, which is taken out.
fn first_out(pipe: &mut Pipe<'_>, to: u32) -> Option<Message>
    requires { to < pipe.old.run.settings.pipelines }
    ensures message { IfSome result (λ m. IsForLane pipe.old pipe.new to m None) }
    ensures out { IfNone result (IsTakenOut pipe.old pipe.new to) }
    ensures empty { IfNone result (waiting pipe.old to ≡ []) }
{
    // a pipe's laws say which phantoms wait
    prove!(pipe.exit().entered() == pipe.entered());
    pipe.take_out(to)
}
