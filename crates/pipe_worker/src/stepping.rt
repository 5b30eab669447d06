//! Packets that take a step: past a group at which they have no place, to another pipe, or home.
ghost use Rattle.std.specs.Prelude.{◌≡◌, ◌<◌, ◌↔◌, ℕ, length, IfSome, IfNone, IsTrue, IsFalse};
ghost use Rattle.pipe_parts.specs.declared.packet.Packet.{Packet as PacketHere};
ghost use Rattle.packet_lines.specs.Lined.{line_of, AreLined};
ghost use Rattle.packet_steps.specs.declared.heading.Heading.{Heading};
ghost use Rattle.pipe_worker.specs.Events.{CanStep, CanSend, departing_as, IsOneEvent};

use crate::pipe::Pipe;
use crate::standing::stand;
use packet_steps::RunData;
use pipe_messages::Message;
use pipe_parts::Packet;

impl Pipe<'_> {
    // Takes a packet a step on, where one can take it.
    pub(crate) fn step_one(&mut self) -> bool
        ensures did { IsTrue result → IsOneEvent self.old self.new }
        ensures not { IsFalse result → (p : PacketHere) (heading : Heading) (line : ℕ)
            → CanStep self.old p heading line → ⊥ }
        ensures kept { IsFalse result → self.new ≡ self.old }
    {
        if self.packets.first(self.pipe).is_some() {
            self.step_here();
            return true;
        }
        match self.next_line() {
            Some(to) => {
                self.send_first(to);
                true
            }
            None => false,
        }
    }

    // A pipe to which a packet goes next, and for which fewer messages wait than may.
    fn next_line(&self) -> Option<u32>
        ensures some { IfSome result (CanSend self.now) }
        ensures none { IfNone result ((to : ℕ) → CanSend self.now to → ⊥) }
    {
        for to in 0..self.run.settings.pipelines {
            if self.can_send(to) {
                return Some(to);
            }
        }
        None
    }

    // Whether a packet goes to this pipe next, and fewer messages wait for it than may.
    fn can_send(&self, to: u32) -> bool
        requires { to < self.now.run.settings.pipelines }
        ensures { IsTrue result ↔ CanSend self.now to }
    {
        to != self.pipe && self.packets.first(to).is_some() && self.outbox.count(to) < self.room()
    }

    // The first packet of this pipe's line skips its group, or is home.
    fn step_here(&mut self)
        requires lines { AreLined self.old.packets }
        requires some { 0 < length (line_of self.old.packets self.old.pipe) }
        ensures { IsOneEvent self.old self.new }
    {
        let mut packet = self.packets.take_first(self.pipe);
        if packet.g == groups(&self.run) {
            prove!(self.door.is_away(packet.t));
            self.run.finish(&packet, &mut self.fields);
            let Packet {
                t,
                env,
                by,
                touched,
                ..
            } = packet;
            self.door.home(t, env, &self.fields, &by, &touched);
        } else {
            self.run.skip(&mut packet);
            stand(
                &self.run,
                self.pipe,
                &self.owners,
                &mut self.packets,
                packet,
            );
        }
    }

    // The first packet of another pipe's line goes to it.
    fn send_first(&mut self, to: u32)
        requires lines { AreLined self.old.packets }
        requires can { CanSend self.old to }
        ensures { IsOneEvent self.old self.new }
    {
        let packet = self.packets.take_first(to);
        let message = departing(packet, groups(&self.run));
        self.outbox.push(to, message);
    }
}

// How many groups the code of a run has.
fn groups(run: &RunData<'_>) -> u32
    ensures { result ≡ length run.now.code.groups }
{
    run.code.groups()
}

// The message with which a packet goes to another pipe: to its place there, or home behind all groups.
fn departing(packet: Packet, groups: u32) -> Message
    ensures { result ≡ departing_as groups packet }
{
    let Packet {
        t,
        g,
        env,
        by,
        touched,
        ..
    } = packet;
    if g == groups {
        Message::Home {
            t,
            env,
            by,
            touched,
        }
    } else {
        Message::Packet {
            t,
            g,
            env,
            by,
            touched,
        }
    }
}
