//! The exit of one pipe.
ghost use Rattle.std.specs.Prelude.{◌≡◌, ◌⊎◌, ◌+◌, ◌*◌, ◌<◌, ◌≤◌, ◌↔◌, List, length, IfOk, IfSome, IfNone, OnSome, IsTrue};
ghost use Rattle.egress_order.specs.OwnPackets.{unentered, own_arrival, leading, left_count, came_home, written, IsAway, IsExit, IsMerged};

use mp5_words::NoMemory;
use std::alloc::Global;
use std::marker::Model;

/// The home exit of one pipe, seen as how many own arrivals entered, which of them are home, and the words of
/// their fields.
#[derive(Drop)]
pub struct HomeExit {
    pipe: u32,
    pipelines: u32,
    arrivals: u32,
    window: u32,
    fields: u32,
    entered: u32,
    // how many have left
    left: u32,
    home: Vec<bool>,
    words: Vec<i32>,
}

impl Model for HomeExit {
    ghost use Rattle.egress_order.specs.OwnPackets.{OwnPackets, Counts};

    ghost Value = { OwnPackets };

    ghost view = { λ e. record { pipe = e.pipe; pipelines = e.pipelines; arrivals = e.arrivals; window = e.window; fields = e.fields; entered = e.entered; home = e.home.items; words = e.words.items } };

    ghost invariant = { λ e. Counts record { pipe = e.pipe; pipelines = e.pipelines; arrivals = e.arrivals; window = e.window; fields = e.fields; entered = e.entered; home = e.home.items; words = e.words.items } e.left };
}

impl HomeExit {
    /// The exit of pipe `pipe` of `pipelines`, before the first own arrival enters. At most `window` of them
    /// are ever out.
    pub fn new(
        alloc: Global,
        pipe: u32,
        pipelines: u32,
        arrivals: u32,
        window: u32,
        fields: u32,
    ) -> Result<HomeExit, NoMemory>
        requires pipe { pipe < pipelines }
        requires pipelines { pipelines ≤ 16 }
        requires arrivals { arrivals ≤ 262144 }
        requires some_window { 1 ≤ window }
        requires window { window ≤ 1024 }
        requires fields { fields ≤ 32 }
        ensures { IfOk result (λ e. e ≡ unentered pipe pipelines arrivals window fields) }
    {
        let own = (arrivals + (pipelines - 1 - pipe)) / pipelines;
        Ok(HomeExit {
            pipe,
            pipelines,
            arrivals,
            window,
            fields,
            entered: 0,
            left: 0,
            home: vec![in alloc; false; own as usize]?,
            words: vec![in alloc; 0; (own * fields) as usize]?,
        })
    }

    /// The own arrival that enters next. None exactly where `window` own arrivals are out, or none is left to
    /// enter.
    pub fn next(&self) -> Option<u32>
        ensures arrival { IfSome result (λ t. t ≡ own_arrival self.now self.now.entered) }
        ensures early { IfSome result (λ t. t < self.now.arrivals) }
        ensures open { OnSome result (self.now.entered < left_count self.now + self.now.window) }
        ensures none { IfNone result ((self.now.entered ≡ left_count self.now + self.now.window)
            ⊎ (self.now.arrivals ≤ own_arrival self.now self.now.entered)) }
        ensures laws { IsExit self.now }
    {
        if self.entered == self.left + self.window {
            return None;
        }
        let next = self.pipe + self.entered * self.pipelines;
        if next >= self.arrivals {
            return None;
        }
        Some(next)
    }

    /// The next own arrival enters. None exactly where `window` own arrivals are out, or none is left to
    /// enter; then nothing changes.
    pub fn enter(&mut self) -> Option<u32>
        ensures arrival { IfSome result (λ t. t ≡ own_arrival self.old self.old.entered) }
        ensures early { IfSome result (λ t. t < self.old.arrivals) }
        ensures open { OnSome result (self.old.entered < left_count self.old + self.old.window) }
        ensures entered { OnSome result
            (self.new ≡ record self.old { entered = self.old.entered + 1 }) }
        ensures none { IfNone result ((self.old.entered ≡ left_count self.old + self.old.window)
            ⊎ (self.old.arrivals ≤ own_arrival self.old self.old.entered)) }
        ensures kept { IfNone result (self.new ≡ self.old) }
    {
        let next = self.next()?;
        self.entered += 1;
        Some(next)
    }

    /// Arrival `t`, which is out and not yet home, comes home with the last value of its fields.
    pub fn home(&mut self, t: u32, fields: &[i32])
        requires away { IsAway self.old t }
        requires fields { length fields.now ≡ self.old.fields }
        ensures { self.new ≡ came_home self.old t fields.now }
    {
        let k = (t / self.pipelines) as usize;
        self.home[k] = true;
        let from = k * self.fields as usize;
        write(&mut self.words, from, fields);
        self.left = leading_from(&self.home, self.left);
    }

    /// Whether an arrival is an own one that is out: it has entered, and isn't home.
    pub fn is_away(&self, t: u32) -> bool
        ensures { IsTrue result ↔ IsAway self.now t }
    {
        let k = t / self.pipelines;
        t % self.pipelines == self.pipe && k < self.entered && !self.home[k as usize]
    }

    /// How many own arrivals have entered.
    pub fn entered(&self) -> u32
        ensures entered { result ≡ self.now.entered }
        ensures laws { IsExit self.now }
    {
        self.entered
    }

    /// How many own arrivals have left: they and all own arrivals before them are home.
    pub fn left(&self) -> u32
        ensures left { result ≡ left_count self.now }
        ensures laws { IsExit self.now }
    {
        self.left
    }
}

/// Writes each own packet at its place in order of arrival, from word `t * fields` on, and leaves all other
/// words as they are. All own arrivals have left.
pub fn merge(exit: &HomeExit, into: &mut [i32])
    requires left { left_count exit.now ≡ length exit.now.home }
    requires size { length into.old ≡ exit.now.arrivals * exit.now.fields }
    ensures { IsMerged exit.now into.old into.new }
{
    let fields = exit.fields as usize;
    for k in 0..exit.home.len() {
        let t = exit.pipe as usize + k * exit.pipelines as usize;
        let packet = &exit.words[k * fields..k * fields + fields];
        write(into, t * fields, packet);
    }
}

// Writes a piece over the words from `from` on.
fn write(words: &mut [i32], from: usize, piece: &[i32])
    requires { from + length piece.now ≤ length words.old }
    ensures { words.new ≡ written words.old from piece.now }
{
    words[from..from + piece.len()].copy_from_slice(piece);
}

// How many flags are set before the first that is not, of which the first `from` are known to be.
fn leading_from(flags: &[bool], from: u32) -> u32
    requires known { from ≤ leading flags.now }
    requires size { length flags.now ≤ 262144 }
    ensures { result ≡ leading flags.now }
{
    let mut count = from as usize;
    while count < flags.len() && flags[count] {
        count += 1;
    }
    count as u32
}

#[cfg(test)]
mod tests {
    use super::*;
    use std::test::Fail;

    #[test]
    fn pipe_1_of_2_with_a_window_of_one(rt: HostRuntime) -> Result<(), Fail> {
        let mut exit = HomeExit::new(rt.alloc(), 1, 2, 5, 1, 1)?;
        assert_eq!(rt; exit.next(), Some(1));
        assert_eq!(rt; exit.is_away(1), false, "it hasn't entered");
        assert_eq!(rt; exit.enter(), Some(1));
        assert_eq!(rt; exit.next(), None, "one is out");
        assert_eq!(rt; exit.enter(), None);
        assert_eq!(rt; exit.is_away(1), true);
        assert_eq!(rt; exit.is_away(0), false, "it is no own one");
        exit.home(1, &[7]);
        assert_eq!(rt; exit.is_away(1), false, "it is home");
        assert_eq!(rt; exit.enter(), Some(3));
        exit.home(3, &[8]);
        assert_eq!(rt; exit.enter(), None, "none is left");
        assert_eq!(rt; exit.entered(), 2);
        assert_eq!(rt; exit.left(), 2);
        let mut packets = [1, 2, 3, 4, 5];
        merge(&exit, &mut packets);
        assert_eq!(rt; packets, [1, 7, 3, 8, 5]);
        Ok(())
    }

    #[test]
    fn arrivals_leave_in_order(rt: HostRuntime) -> Result<(), Fail> {
        let mut exit = HomeExit::new(rt.alloc(), 0, 1, 3, 2, 2)?;
        assert_eq!(rt; exit.enter(), Some(0));
        assert_eq!(rt; exit.enter(), Some(1));
        exit.home(1, &[3, 4]);
        assert_eq!(rt; exit.left(), 0);
        assert_eq!(rt; exit.enter(), None, "two are out");
        exit.home(0, &[1, 2]);
        assert_eq!(rt; exit.left(), 2);
        assert_eq!(rt; exit.enter(), Some(2));
        Ok(())
    }

    #[test]
    fn edges(rt: HostRuntime) -> Result<(), Fail> {
        let mut none = HomeExit::new(rt.alloc(), 15, 16, 0, 1024, 32)?;
        assert_eq!(rt; none.enter(), None);
        assert_eq!(rt; none.left(), 0);
        merge(&none, &mut []);
        let mut late = HomeExit::new(rt.alloc(), 7, 8, 7, 1, 0)?;
        assert_eq!(rt; late.enter(), None);
        let mut most = HomeExit::new(rt.alloc(), 0, 16, 262_144, 2, 0)?;
        assert_eq!(rt; most.enter(), Some(0));
        assert_eq!(rt; most.enter(), Some(16));
        Ok(())
    }
}
