//! The rule of the queue below a lane: what lies in it, and what each end knows.

use crate::carried::Carried;
use crossbeam_queue::RuledArrayQueue;
use crossbeam_queue::protocol::{Lesson, Outcome, Protocol, Split};
use std::collections::LinkedList;
use std::marker::PhantomData;
use std::snapshot::Snapshot;

/// What lies in the queue: the key, once, before any item, and then the items.
#[derive(Drop)]
pub enum Slip<T, K> {
    /// The key, which no run stores.
    Opening(Snapshot<K>),
    /// An item.
    Item(T),
}

/// What the pass of an end knows. No value of it is made.
pub struct Known<T, K> {
    /// Whether it sends.
    pub sends: bool,
    /// Whether it receives.
    pub receives: bool,
    /// The key, once it is known.
    pub keys: LinkedList<K>,
    /// Whether the key was taken out of the queue.
    pub opened: bool,
    /// What it has sent.
    pub sent: LinkedList<T>,
    /// What it has received.
    pub got: LinkedList<T>,
}

/// The rule of the lane of these items.
pub struct Lane<T> {
    marker: PhantomData<T>,
}

/// The queue of the lane of these items.
pub type Line<T> = RuledArrayQueue<
    Slip<T, <T as Carried>::Key>,
    Known<T, <T as Carried>::Key>,
    Lane<T>,
>;

impl<T: Carried> Protocol<Slip<T, T::Key>, Known<T, T::Key>> for Lane<T> {
    ghost use Rattle.pair_lane.specs.Rule.{Laned, fresh};

    ghost holds = { Laned T.fits };

    ghost first = { fresh };
}

/// The key goes into the queue.
pub struct Opens;

impl<T, K> Outcome<Slip<T, K>, Known<T, K>> for Opens {
    ghost use Rattle.pair_lane.specs.Rule.{HasOpened};

    ghost then = { λ v slip w. HasOpened slip w };
}

impl<T, K> Lesson<Slip<T, K>, Known<T, K>> for Opens {
    ghost use Rattle.pair_lane.specs.Rule.{IsEmpty};

    ghost fact = { λ v slips. IsEmpty slips };
}

/// The key comes out of the queue.
pub struct Unlocks;

impl<T, K> Outcome<Slip<T, K>, Known<T, K>> for Unlocks {
    ghost use Rattle.pair_lane.specs.Rule.{HasUnlocked};

    ghost then = { λ v slip w. HasUnlocked v w };
}

impl<T, K> Lesson<Slip<T, K>, Known<T, K>> for Unlocks {
    ghost use Rattle.pair_lane.specs.Rule.{HoldsKey};

    ghost fact = { λ v slips. HoldsKey slips };
}

/// The two ends go apart.
pub struct Parts;

impl<T, K> Split<Known<T, K>> for Parts {
    ghost use Rattle.pair_lane.specs.Rule.{sending_end, receiving_end};

    ghost left = { λ v. sending_end v.keys v.sent };

    ghost right = { λ v. receiving_end v.keys v.got };
}

/// An item goes into the queue.
pub struct Sends;

impl<T, K> Outcome<Slip<T, K>, Known<T, K>> for Sends {
    ghost use Rattle.pair_lane.specs.Rule.{HasSent};

    ghost then = { λ v slip w. HasSent v slip w };
}

impl<T, K> Lesson<Slip<T, K>, Known<T, K>> for Sends {
    ghost use Rattle.pair_lane.specs.Rule.{Wait};

    ghost fact = { λ v slips. Wait v.sent slips };
}

/// An item comes out of the queue.
pub struct Receives<T> {
    marker: PhantomData<T>,
}

impl<T: Carried> Outcome<Slip<T, T::Key>, Known<T, T::Key>> for Receives<T> {
    ghost use Rattle.pair_lane.specs.Rule.{HasReceived};

    ghost then = { λ v slip w. HasReceived T.fits v slip w };
}

impl<T: Carried> Lesson<Slip<T, T::Key>, Known<T, T::Key>> for Receives<T> {
    ghost use Rattle.std.specs.Prelude.{⊤};

    ghost fact = { λ v slips. ⊤ };
}
