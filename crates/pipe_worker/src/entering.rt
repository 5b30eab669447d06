//! Own arrivals that enter.
ghost use Rattle.std.specs.Prelude.{◌≡◌, ◌+◌, ◌<◌, ◌↔◌, ℕ, length, IsTrue, IsFalse};
ghost use Rattle.egress_order.specs.OwnPackets.{own_arrival, left_count};
ghost use Rattle.pipe_worker.specs.Entering.{door_with};
ghost use Rattle.pipe_messages.specs.declared.message.Message.TheVariants.{Phantom};
ghost use Rattle.pipe_parts.specs.Waiting.{waits_for};
ghost use Rattle.run_laws.specs.Run.{round_of};
ghost use Rattle.packet_lines.specs.Lined.{AreLined};
ghost use Rattle.home_door.specs.Door.{IsDoor};
ghost use Rattle.pipe_worker.specs.Pipe.{told_all};
ghost use Rattle.pipe_worker.specs.Events.{CanEnter, IsOneEvent};

use crate::pipe::Pipe;
use crate::standing::stand;
use home_door::HomeDoor;
use pipe_messages::Message;
use pipe_parts::{Env, Outbox};

impl Pipe<'_> {
    // Lets the next own arrival enter, where one can.
    pub(crate) fn enter_one(&mut self) -> bool
        ensures did { IsTrue result → IsOneEvent self.old self.new }
        ensures not { IsFalse result → CanEnter self.old → ⊥ }
        ensures kept { IsFalse result → self.new ≡ self.old }
    {
        if !self.can_enter() {
            return false;
        }
        self.enter();
        true
    }

    // Whether the next own arrival can enter.
    fn can_enter(&self) -> bool
        ensures can { IsTrue result ↔ CanEnter self.now }
        ensures door { IsDoor self.now.door }
        ensures lined { IsTrue result → AreLined self.now.packets }
    {
        let Some(t) = self.door.next() else {
            return false;
        };
        prove!(!self.packets.has(t));
        self.round_of(t) <= self.owners.applied()
            && have_room(&self.outbox, self.pipelines(), self.room())
    }

    // The round of an arrival.
    fn round_of(&self, t: u32) -> u32
        ensures { result ≡ round_of self.now.run t }
    {
        t / self.run.settings.round
    }

    // How many pipes there are.
    fn pipelines(&self) -> u32
        ensures { result ≡ self.now.run.settings.pipelines }
    {
        self.run.settings.pipelines
    }

    // Lets the next own arrival enter.
    fn enter(&mut self)
        requires can { CanEnter self.old }
        requires door { IsDoor self.old.door }
        requires lined { AreLined self.old.packets }
        ensures { IsOneEvent self.old self.new }
    {
        let pipelines = self.pipelines();
        let (t, env) = next_in(&mut self.door);
        let packet = self.run.enter(t, env, &mut self.slots);
        tell_all(&mut self.outbox, pipelines, t, &packet.units);
        stand(
            &self.run,
            self.pipe,
            &self.owners,
            &mut self.packets,
            packet,
        );
    }
}

// The next arrival and an environment for it. One is left, and fewer than the window are out.
fn next_in(door: &mut HomeDoor) -> (u32, Env)
    requires left { own_arrival door.old.exit door.old.exit.entered < door.old.exit.arrivals }
    requires window { door.old.exit.entered
        < left_count door.old.exit + door.old.exit.window }
    ensures arrival { result.0 ≡ own_arrival door.old.exit door.old.exit.entered }
    ensures env { length result.1 ≡ door.old.free.slots }
    ensures door { door.new ≡ door_with door.old door.new.free }
    ensures slots { door.new.free.slots ≡ door.old.free.slots }
{
    match door.enter() {
        Some(next) => next,
        None => unreachable!(),
    }
}

// Whether fewer than `room` messages wait for each pipe.
fn have_room(outbox: &Outbox<Message>, pipes: u32, room: u32) -> bool
    requires { pipes ≡ length outbox.now.lines }
    ensures { IsTrue result ↔ ((q : ℕ) → q < pipes → length (waits_for outbox.now q) < room) }
{
    for q in 0..pipes {
        if outbox.count(q) >= room {
            return false;
        }
    }
    true
}

// Tells every pipe of an arrival and its places.
fn tell_all(outbox: &mut Outbox<Message>, pipes: u32, t: u32, units: &[u32; 16])
    requires pipes { pipes ≡ length outbox.old.lines }
    requires room { (q : ℕ) → q < pipes → length (waits_for outbox.old q) < outbox.old.room }
    ensures { outbox.new ≡ told_all outbox.old (Phantom t units.now) }
{
    for q in 0..pipes {
        outbox.push(q, Message::Phantom { t, units: *units });
    }
}
