//! Messages that come over a lane.
ghost use Rattle.std.specs.Prelude.{◌≡◌, ◌<◌, length, None, IfSome, IfNone, IsTrue};
ghost use Rattle.pipe_driver.specs.Driver.{IsReceiver, HasQueues};
ghost use Rattle.pipe_driver.specs.Turning.{IsFromLane, Hears, HearsAll, AreReceivers};

use crate::turning::pipes;
use pair_lane::Receiver;
use pipe_messages::Message;
use pipe_worker::Pipe;
use std::sync::Wait;

// The most messages that are taken in from one lane at a time.
const MOST: u32 = 4096;

// Takes in, from each lane, what came and for which there is room.
pub(crate) fn hear_all<R: Wait>(
    rt: &R,
    pipe: &mut Pipe<'_>,
    lanes: &mut [Receiver<Message>],
    held: &mut [Option<Message>],
)
    requires { AreReceivers pipe.old lanes.old held.old }
    ensures lanes { AreReceivers pipe.new lanes.new held.new }
    ensures hears { HearsAll pipe.old pipe.new }
{
    for from in 0..pipes(pipe, lanes.len()) {
        hear(
            rt,
            pipe,
            from,
            &mut lanes[from as usize],
            &mut held[from as usize],
        );
    }
}

// Takes in, from one lane, what came and for which there is room.
fn hear<R: Wait>(
    rt: &R,
    pipe: &mut Pipe<'_>,
    from: u32,
    lane: &mut Receiver<Message>,
    held: &mut Option<Message>,
)
    requires lane { IsReceiver pipe.old from lane.old held.old }
    requires queues { HasQueues pipe.old }
    requires from { from < pipe.old.run.settings.pipelines }
    ensures lane { IsReceiver pipe.new from lane.new held.new }
    ensures queues { HasQueues pipe.new }
    ensures hears { Hears from pipe.old pipe.new }
{
    for _ in 0..MOST {
        if !hear_one(rt, pipe, from, lane, held) {
            return;
        }
    }
}

// Takes in the next message of a lane, if there is one and room for it.
fn hear_one<R: Wait>(
    rt: &R,
    pipe: &mut Pipe<'_>,
    from: u32,
    lane: &mut Receiver<Message>,
    held: &mut Option<Message>,
) -> bool
    requires lane { IsReceiver pipe.old from lane.old held.old }
    requires queues { HasQueues pipe.old }
    requires from { from < pipe.old.run.settings.pipelines }
    ensures lane { IsReceiver pipe.new from lane.new held.new }
    ensures queues { HasQueues pipe.new }
    ensures hears { Hears from pipe.old pipe.new }
{
    let Some(message) = next_from(rt, lane, held) else {
        return false;
    };
    match pipe.offer(from, message) {
        Ok(()) => true,
        Err(back) => {
            *held = Some(back.message);
            false
        }
    }
}

// The message that is held, or else the next that came.
fn next_from<R: Wait>(
    rt: &R,
    lane: &mut Receiver<Message>,
    held: &mut Option<Message>,
) -> Option<Message>
    ensures message { IfSome result (λ m. IsFromLane lane.old lane.new m held.old) }
    ensures hand { held.new ≡ None }
    ensures none { IfNone result (held.old ≡ None) }
    ensures unchanged { IfNone result (lane.new ≡ lane.old) }
{
    match held.take() {
        Some(message) => Some(message),
        None => lane.receive(rt),
    }
}
