//! The choice of the next event.
ghost use Rattle.std.specs.Prelude.{◌≡◌, ◌≢◌};
ghost use Rattle.pipe_worker.specs.declared.turn.Turn.{Turn as Answer};
ghost use Rattle.pipe_worker.specs.declared.turn.Turn.TheVariants.{Did, Idle};
ghost use Rattle.pipe_worker.specs.Events.{IsOneEvent, IsEventReady};

use crate::pipe::Pipe;

/// What a turn did.
#[derive(Clone, Copy, Debug, PartialEq, Eq)]
pub enum Turn {
    /// Exactly one own event.
    Did,
    /// Nothing, since no own event is ready.
    Idle,
}

impl Pipe<'_> {
    /// Does one own event, if one is ready: serves a place, takes a packet a step on, lets an own arrival enter, or leaves a
    /// round at a group. Takes no memory.
    pub fn turn(&mut self) -> Turn
        ensures did { result ≡ Did → IsOneEvent self.old self.new }
        ensures idle { result ≡ Idle → IsEventReady self.old → ⊥ }
        ensures kept { result ≡ Idle → self.new ≡ self.old }
    {
        if self.serve_one() || self.step_one() || self.enter_one() || self.leave_one() {
            Turn::Did
        } else {
            Turn::Idle
        }
    }
}
