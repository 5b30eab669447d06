//! Rounds that are left, and the units that leave with them.
ghost use Rattle.std.specs.Prelude.{◌≡◌, ◌<◌, ◌↔◌, ℕ, IfSome, IfNone, IsTrue, IsFalse, length};
ghost use Rattle.pipe_stations.specs.Row.{IsRow};
ghost use Rattle.pipe_worker.specs.Events.{CanLeave, IsOneEvent};

use crate::pipe::Pipe;
use pipe_messages::Message;

impl Pipe<'_> {
    // Leaves a round at a group, where one is done.
    pub(crate) fn leave_one(&mut self) -> bool
        ensures did { IsTrue result → IsOneEvent self.old self.new }
        ensures not { IsFalse result → (g : ℕ) → CanLeave self.old g → ⊥ }
        ensures kept { IsFalse result → self.new ≡ self.old }
    {
        match self.done_group() {
            Some(g) => {
                self.leave(g);
                true
            }
            None => false,
        }
    }

    // A group whose round can be left, if there is one.
    fn done_group(&self) -> Option<u32>
        ensures some { IfSome result (CanLeave self.now) }
        ensures none { IfNone result ((g : ℕ) → CanLeave self.now g → ⊥) }
        ensures row { IsRow self.now.row }
    {
        for g in 0..self.row.len() {
            if self.can_leave(g) {
                return Some(g);
            }
        }
        None
    }

    // Whether the present round of a group can be left.
    fn can_leave(&self, g: u32) -> bool
        requires { g < length self.now.row.stations }
        ensures { IsTrue result ↔ CanLeave self.now g }
    {
        let station = self.row.get(g);
        if station.round() >= self.owners.applied() || !station.is_done() {
            return false;
        }
        match station.taker(&self.owners) {
            Some(to) => self.outbox.count(to) < self.room(),
            None => true,
        }
    }

    // Leaves the present round of a group.
    fn leave(&mut self, g: u32)
        requires can { CanLeave self.old g }
        requires row { IsRow self.old.row }
        ensures { IsOneEvent self.old self.new }
    {
        if let Some((to, unit)) = self.row.leave(g, &self.owners) {
            let from = self.row.get(g).round();
            let u = unit.number;
            self.outbox.push(to, Message::Cell { g, u, from, unit });
        }
    }
}
