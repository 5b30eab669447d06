//! The door of one pipe.
ghost use Rattle.std.specs.Prelude.{◌≡◌, ◌⊎◌, ◌+◌, ◌/◌, ◌%◌, ◌<◌, ◌≤◌, ◌↔◌, length, IfOk, IfSome, IfNone, OnSome, IsTrue, slice_index, slice_set};
ghost use Rattle.egress_order.specs.OwnPackets.{own_arrival, left_count, came_home, IsAway};
ghost use Rattle.pipe_parts.specs.EntryList.{entry_of};
ghost use Rattle.pipe_parts.specs.FreeEnvs.{with_free};
ghost use Rattle.home_door.specs.Door.{first_door, IsDoor};

use egress_order::HomeExit;
use mp5_words::NoMemory;
use pipe_parts::{Entries, Env, Envs};
use std::alloc::Global;
use std::marker::Model;

/// Where the own arrivals of a pipe enter, each with an environment, and come home, where its fields, its
/// entries and its environment stay.
#[derive(Drop)]
pub struct HomeDoor {
    pipelines: u32,
    // how many own arrivals there are
    own: u32,
    exit: HomeExit,
    envs: Envs,
    entries: Entries,
}

impl Model for HomeDoor {
    ghost use Rattle.home_door.specs.Door.{Door, KeepsDoor};

    ghost Value = { Door };

    ghost view = { λ d. record { exit = d.exit; free = d.envs; entries = d.entries } };

    ghost invariant = { λ d. KeepsDoor record { exit = d.exit; free = d.envs; entries = d.entries } d.pipelines d.own };
}

impl HomeDoor {
    /// The door of pipe `pipe` of `pipelines`, before the first own arrival enters. At most `window` of them
    /// are ever out, each with an environment of `slots` words.
    pub fn new(
        alloc: Global,
        pipe: u32,
        pipelines: u32,
        arrivals: u32,
        window: u32,
        fields: u32,
        slots: u32,
    ) -> Result<HomeDoor, NoMemory>
        requires pipe { pipe < pipelines }
        requires pipelines { pipelines ≤ 16 }
        requires arrivals { arrivals ≤ 262144 }
        requires some_window { 1 ≤ window }
        requires window { window ≤ 1024 }
        requires fields { fields ≤ 32 }
        ensures { IfOk result (λ d.
            d ≡ first_door pipe pipelines arrivals window fields slots) }
    {
        let own = (arrivals + (pipelines - 1 - pipe)) / pipelines;
        Ok(HomeDoor {
            pipelines,
            own,
            exit: HomeExit::new(alloc, pipe, pipelines, arrivals, window, fields)?,
            envs: Envs::new(alloc, window, slots)?,
            entries: Entries::new(alloc, own)?,
        })
    }

    /// The own arrival that enters next. None exactly where `window` own arrivals are out, or none is left to
    /// enter.
    pub fn next(&self) -> Option<u32>
        ensures arrival { IfSome result (λ t.
            t ≡ own_arrival self.now.exit self.now.exit.entered) }
        ensures early { IfSome result (λ t. t < self.now.exit.arrivals) }
        ensures open { OnSome result
            (self.now.exit.entered < left_count self.now.exit + self.now.exit.window) }
        ensures none { IfNone result
            ((self.now.exit.entered ≡ left_count self.now.exit + self.now.exit.window)
            ⊎ (self.now.exit.arrivals ≤ own_arrival self.now.exit self.now.exit.entered)) }
        ensures laws { IsDoor self.now }
    {
        self.exit.next()
    }

    /// The next own arrival enters, with an environment. None exactly where `window` own arrivals are out, or
    /// none is left to enter; then nothing changes.
    pub fn enter(&mut self) -> Option<(u32, Env)>
        ensures arrival { IfSome result (λ r.
            r.0 ≡ own_arrival self.old.exit self.old.exit.entered) }
        ensures early { IfSome result (λ r. r.0 < self.old.exit.arrivals) }
        ensures open { OnSome result
            (self.old.exit.entered < left_count self.old.exit + self.old.exit.window) }
        ensures entered { OnSome result
            (self.new.exit ≡ record self.old.exit { entered = self.old.exit.entered + 1 }) }
        ensures env { IfSome result (λ r. length r.1 ≡ self.old.free.slots) }
        ensures free { IfSome result (λ r. self.old.free ≡ with_free self.new.free r.1) }
        ensures entries { self.new.entries ≡ self.old.entries }
        ensures none { IfNone result
            ((self.old.exit.entered ≡ left_count self.old.exit + self.old.exit.window)
            ⊎ (self.old.exit.arrivals ≤ own_arrival self.old.exit self.old.exit.entered)) }
        ensures kept { IfNone result (self.new ≡ self.old) }
    {
        let t = self.exit.enter()?;
        let Some(env) = self.envs.pop() else {
            unreachable!()
        };
        Some((t, env))
    }

    /// Arrival `t`, which is out and not yet home, comes home with its environment, the last value of its
    /// fields, and what was done to it.
    pub fn home(&mut self, t: u32, env: Env, fields: &[i32], by: &[u8; 16], touched: &[u16; 16])
        requires away { IsAway self.old.exit t }
        requires fields { length fields.now ≡ self.old.exit.fields }
        requires env { length env ≡ self.old.free.slots }
        ensures exit { self.new.exit ≡ came_home self.old.exit t fields.now }
        ensures free { self.new.free ≡ with_free self.old.free env }
        ensures entries { self.new.entries ≡ slice_set self.old.entries
            (t / self.old.exit.pipelines) (record { by = by.now; touched = touched.now }) }
    {
        self.exit.home(t, fields);
        self.envs.push(env);
        self.entries.set(t / self.pipelines, by, touched);
    }

    /// Whether an arrival is an own one that is out: it has entered, and isn't home.
    pub fn is_away(&self, t: u32) -> bool
        requires { t < self.now.exit.arrivals }
        ensures away { IsTrue result ↔ IsAway self.now.exit t }
        ensures laws { IsDoor self.now }
    {
        self.exit.is_away(t)
    }

    /// Whether all own arrivals have left: each of them is home.
    pub fn is_empty(&self) -> bool
        ensures left { IsTrue result ↔ (left_count self.now.exit ≡ length self.now.exit.home) }
        ensures laws { IsDoor self.now }
    {
        self.exit.left() == self.own
    }

    /// The own packets, in order of arrival.
    pub fn exit(&self) -> &HomeExit
        ensures exit { result.now ≡ self.now.exit }
        ensures laws { IsDoor self.now }
    {
        &self.exit
    }

    /// How many own arrivals have entered.
    pub fn entered(&self) -> u32
        ensures entered { result ≡ self.now.exit.entered }
        ensures laws { IsDoor self.now }
    {
        self.exit.entered()
    }

    /// The pipe that served own arrival `t` at group `g`, 255 where none did.
    pub fn by(&self, t: u32, g: u32) -> u8
        requires arrival { t < self.now.exit.arrivals }
        requires own { t % self.now.exit.pipelines ≡ self.now.exit.pipe }
        requires group { g < 16 }
        ensures { result ≡ slice_index
            (entry_of self.now.entries (t / self.now.exit.pipelines)).by g }
    {
        self.entries.by(t / self.pipelines, g)
    }

    /// The arrays that own arrival `t` touched at group `g`, bit `a` for array `a`.
    pub fn touched(&self, t: u32, g: u32) -> u16
        requires arrival { t < self.now.exit.arrivals }
        requires own { t % self.now.exit.pipelines ≡ self.now.exit.pipe }
        requires group { g < 16 }
        ensures { result ≡ slice_index
            (entry_of self.now.entries (t / self.now.exit.pipelines)).touched g }
    {
        self.entries.touched(t / self.pipelines, g)
    }
}

#[cfg(test)]
mod tests {
    use super::*;
    use egress_order::merge;
    use std::test::Fail;

    #[test]
    fn pipe_1_of_2_with_a_window_of_one(rt: HostRuntime) -> Result<(), Fail> {
        let mut door = HomeDoor::new(rt.alloc(), 1, 2, 5, 1, 0, 3)?;
        assert_eq!(rt; door.next(), Some(1));
        let (_, env) = door.enter().expect(&rt, "the first enters");
        assert_eq!(rt; door.next(), None, "one is out");
        assert_eq!(rt; door.is_away(1), true);
        door.home(1, env, &[], &[0; 16], &[0; 16]);
        assert_eq!(rt; door.is_away(1), false, "it is home");
        let (t, env) = door.enter().expect(&rt, "the second enters");
        assert_eq!(rt; t, 3);
        assert_eq!(rt; door.is_empty(), false, "it is out");
        door.home(3, env, &[], &[0; 16], &[0; 16]);
        assert_eq!(rt; door.next(), None, "none is left");
        assert_eq!(rt; door.is_empty(), true);
        Ok(())
    }

    #[test]
    fn what_came_home_stays(rt: HostRuntime) -> Result<(), Fail> {
        let mut door = HomeDoor::new(rt.alloc(), 1, 2, 3, 1, 1, 1)?;
        let (_, env) = door.enter().expect(&rt, "the first enters");
        let mut by = [255; 16];
        by[4] = 7;
        let mut touched = [0; 16];
        touched[4] = 0x8001;
        door.home(1, env, &[30], &by, &touched);
        assert_eq!(rt; door.by(1, 4), 7);
        assert_eq!(rt; door.by(1, 5), 255);
        assert_eq!(rt; door.touched(1, 4), 0x8001);
        let mut packets = [1, 2, 3];
        merge(door.exit(), &mut packets);
        assert_eq!(rt; packets, [1, 30, 3]);
        Ok(())
    }

    #[test]
    fn environments_go_round(rt: HostRuntime) -> Result<(), Fail> {
        let mut door = HomeDoor::new(rt.alloc(), 0, 1, 3, 2, 0, 2)?;
        let (_, mut first) = door.enter().expect(&rt, "the first enters");
        let (_, second) = door.enter().expect(&rt, "the second enters");
        first.words_mut()[1] = 9;
        door.home(1, second, &[], &[5; 16], &[0; 16]);
        assert_eq!(rt; door.next(), None, "the first is still out");
        door.home(0, first, &[], &[6; 16], &[0; 16]);
        assert_eq!(rt; door.by(1, 0), 5);
        let (_, third) = door.enter().expect(&rt, "the third enters");
        assert_eq!(rt; third.words(), [0, 9].as_slice(), "it was the first's");
        assert_eq!(rt; door.entered(), 3);
        Ok(())
    }
}
