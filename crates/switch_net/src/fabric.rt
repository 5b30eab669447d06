//! What networks are run on, and the marks of their runs.
ghost use Rattle.std.specs.Prelude.{◌≡◌, ◌≤◌, length, sum, Some, None};
ghost use Rattle.switch_net.specs.Answer.{IsEnded};
ghost use Rattle.switch_net.specs.Marks.{Runs, HasRun, mark_of, word_sum};

use crate::answer::Answer;
use crate::gate::Gate;
use crate::network::{Ended, Network};
use mp5_words::Settings;
use std::marker::Model;
use std::sync::Wait;
use std::thread;

/// What is kept of a run: the seed of its order, where it has one, its settings, how many arrivals
/// there were, the sums of its packets' and its cells' words, reduced to 32 bits, and how many
/// places were served.
#[derive(Clone, Copy, Debug, PartialEq, Eq)]
pub struct Mark {
    pub seed: Option<u64>,
    pub settings: Settings,
    pub arrivals: u32,
    pub packets: i32,
    pub cells: i32,
    pub served: u64,
}

/// The mark of a run that was made. Only a run makes one.
#[derive(Drop)]
pub struct Ran {
    mark: Mark,
}

impl Model for Ran {
    ghost use Rattle.switch_net.specs.declared.fabric.Mark.{Mark};

    ghost Value = { Mark };

    ghost view = { λ r. r.mark };
}

impl Ran {
    /// The mark.
    pub fn mark(&self) -> Mark
        ensures { result ≡ self.now }
    {
        self.mark
    }
}

/// What networks are run on: a gate, and what is kept of the runs. It is seen as how many networks
/// were run, and the mark of the last one.
pub trait Fabric {
    /// What pipes in threads ask before each turn.
    type Gate: Gate + Sync;

    ghost seen: { Self → Runs };

    /// The gate.
    fn gate(&self) -> &Self::Gate;

    /// Keeps the mark of a run, and counts it.
    fn note(&mut self, ran: Ran)
        ensures { HasRun ran (seen self.old) (seen self.new) };

    /// Runs a network with a thread for each pipe, under the gate.
    final fn run<'a, R: thread::Threads + Wait + Sync>(
        &mut self,
        rt: &R,
        network: Network<'a>,
    ) -> Ended<'a>
        ensures ended { IsEnded network.entry result }
        ensures run { HasRun (mark_of network.entry None result.answer)
            (seen self.old) (seen self.new) }
    {
        let settings = network.settings();
        let ended = network.run(rt, self.gate());
        self.note(mark_for(None, settings, &ended.answer));
        ended
    }

    /// Runs a network on one thread, in an order that the seed names.
    final fn run_serial<'a, R: Wait>(
        &mut self,
        rt: &R,
        network: Network<'a>,
        seed: u64,
    ) -> Ended<'a>
        ensures ended { IsEnded network.entry result }
        ensures run { HasRun (mark_of network.entry (Some seed) result.answer)
            (seen self.old) (seen self.new) }
    {
        let settings = network.settings();
        let ended = network.run_serial(rt, seed);
        self.note(mark_for(Some(seed), settings, &ended.answer));
        ended
    }
}

/// The program's fabric.
#[derive(Drop)]
pub struct Threads<'g, G: Gate + Sync> {
    gate: &'g G,
    runs: u64,
    last: Option<Mark>,
}

impl<'g, G: Gate + Sync> Model for Threads<'g, G> {
    ghost use Rattle.switch_net.specs.Marks.{Runs};

    ghost Value = { Runs };

    ghost view = { λ t. record { count = t.runs; last = t.last } };
}

impl<'g, G: Gate + Sync> Threads<'g, G> {
    /// A fabric on which no network was run.
    pub fn new(gate: &'g G) -> Threads<'g, G>
        ensures count { result.count ≡ 0 }
        ensures last { result.last ≡ None }
    {
        Threads {
            gate,
            runs: 0,
            last: None,
        }
    }
}

impl<G: Gate + Sync> Fabric for Threads<'_, G> {
    type Gate = G;

    ghost seen = { λ t. t };

    fn gate(&self) -> &G {
        self.gate
    }

    fn note(&mut self, ran: Ran) {
        self.runs = self.runs.saturating_add(1);
        self.last = Some(ran.mark);
    }
}

// The mark of a run.
fn mark_for(seed: Option<u64>, settings: Settings, answer: &Answer) -> Ran
    requires few { length answer.now.counts.items ≤ 1048576 }
    ensures seed { result.seed ≡ seed }
    ensures settings { result.settings ≡ settings }
    ensures arrivals { result.arrivals ≡ answer.now.arrivals }
    ensures packets { result.packets ≡ word_sum answer.now.packets.items }
    ensures cells { result.cells ≡ word_sum answer.now.cells.items }
    ensures served { result.served ≡ sum answer.now.counts.items }
{
    let mark = Mark {
        seed,
        settings,
        arrivals: answer.arrivals,
        packets: word_sum(answer.packets.as_slice()),
        cells: word_sum(answer.cells.as_slice()),
        served: total(answer.counts.as_slice()),
    };
    Ran { mark }
}

// The sum of words, reduced to a word.
fn word_sum(words: &[i32]) -> i32
    ensures { result ≡ word_sum words.now }
{
    let mut sum = 0i32;
    for word in words {
        sum = sum.wrapping_add(*word);
    }
    sum
}

// The sum of counts.
fn total(counts: &[u32]) -> u64
    requires { length counts.now ≤ 1048576 }
    ensures { result ≡ sum counts.now }
{
    let mut total = 0u64;
    for count in counts {
        total += u64::from(*count);
    }
    total
}
