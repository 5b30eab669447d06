//! The messages that wait.
ghost use Rattle.std.specs.Prelude.{◌≡◌, [], ◌∷◌, ◌++◌, ◌<◌, ◌≤◌, length, drop, slice_get, IfOk, IfSome, IfNone};
ghost use Rattle.std.specs.Option.{option_copied};
ghost use Rattle.std.specs.VecDeque.{deque_capacity};
ghost use Rattle.pipe_parts.specs.Waiting.{none_waits, waits_for, with_waiting, IsOutbox};

use mp5_words::NoMemory;
use std::alloc::Global;
use std::collections::VecDeque;
use std::marker::Model;

/// The items that wait for each pipe, in order, seen as the room for each pipe and a list for each.
#[derive(Drop)]
pub struct Outbox<T: Drop> {
    room: u32,
    lines: Vec<VecDeque<T, Global>>,
}

impl<T: Drop> Model for Outbox<T> {
    ghost use Rattle.std.specs.Prelude.{map};
    ghost use Rattle.std.specs.VecDeque.{deque_items};
    ghost use Rattle.pipe_parts.specs.Waiting.{Waiting};
    ghost use Rattle.pipe_parts.specs.Room.{HaveRoom};

    ghost Value = { Waiting T };

    ghost view = { λ o. record { room = o.room; lines = map deque_items o.lines.items } };

    ghost invariant = { λ o. HaveRoom o.room o.lines.items };
}

impl<T: Drop> Outbox<T> {
    /// Nothing waits. There is room for `room` items for each pipe.
    pub fn new(alloc: Global, pipes: u32, room: u32) -> Result<Outbox<T>, NoMemory>
        requires { pipes ≤ 16 }
        ensures { IfOk result (λ o. o ≡ none_waits pipes room) }
    {
        let mut lines = Vec::with_capacity(alloc, pipes as usize)?;
        for _ in 0..pipes {
            lines.push_reserved(VecDeque::with_capacity(alloc, room as usize)?);
        }
        Ok(Outbox { room, lines })
    }

    /// How many items wait for a pipe.
    pub fn count(&self, to: u32) -> u32
        requires { to < length self.now.lines }
        ensures count { result ≡ length (waits_for self.now to) }
        ensures laws { IsOutbox self.now }
    {
        self.lines[to as usize].len() as u32
    }

    /// The first item that waits for a pipe. None exactly where none does.
    pub fn first(&self, to: u32) -> Option<&T>
        requires { to < length self.now.lines }
        ensures first { option_copied result ≡ slice_get (waits_for self.now to) 0 }
        ensures laws { IsOutbox self.now }
    {
        self.lines[to as usize].front()
    }

    /// An item waits behind all others for its pipe, for which there are fewer than `room`.
    pub fn push(&mut self, to: u32, item: T)
        requires pipe { to < length self.old.lines }
        requires room { length (waits_for self.old to) < self.old.room }
        ensures { self.new ≡ with_waiting self.old to (waits_for self.old to ++ item ∷ []) }
    {
        self.lines[to as usize].push_back_reserved(item);
    }

    /// Takes the first item that waits for a pipe. None exactly where none does.
    pub fn pop(&mut self, to: u32) -> Option<T>
        requires { to < length self.old.lines }
        ensures first { IfSome result (λ item. waits_for self.old to ≡ item ∷ waits_for self.new to) }
        ensures rest { self.new ≡ with_waiting self.old to (drop 1 (waits_for self.old to)) }
        ensures none { IfNone result (waits_for self.old to ≡ []) }
    {
        self.lines[to as usize].pop_front()
    }
}

#[cfg(test)]
mod tests {
    use super::*;
    use std::test::Fail;

    #[test]
    fn each_pipe_has_its_own_order(rt: HostRuntime) -> Result<(), Fail> {
        let mut outbox = Outbox::new(rt.alloc(), 3, 2)?;
        outbox.push(1, 10);
        outbox.push(2, 20);
        outbox.push(1, 11);
        assert_eq!(rt; outbox.count(1), 2);
        assert_eq!(rt; outbox.first(1).copied(), Some(10));
        assert_eq!(rt; outbox.first(0).copied(), None);
        assert_eq!(rt; outbox.pop(0), None);
        assert_eq!(rt; outbox.pop(1), Some(10));
        assert_eq!(rt; outbox.pop(1), Some(11));
        assert_eq!(rt; outbox.pop(1), None);
        assert_eq!(rt; outbox.count(2), 1);
        assert_eq!(rt; outbox.pop(2), Some(20));
        Ok(())
    }
}
