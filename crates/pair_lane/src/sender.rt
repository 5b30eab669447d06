ghost use Rattle.std.specs.Prelude.{◌≡◌, OnOk, OnErr, IfErr};
ghost use Rattle.pair_lane.specs.Lane.{after, IsFull};

use crate::carried::Carried;
use crate::rule::{Known, Line, Sends, Slip};
use crossbeam_queue::Pass;
use std::alloc::Global;
use std::marker::Model;
use std::snapshot::Snapshot;
use std::sync::{Arc, Wait};

/// An item that a lane had no room for.
#[derive(Drop)]
pub struct Full<T> {
    pub item: T,
}

/// The sending end of a lane, seen as the lane's key, its capacity and the items that it has sent.
#[derive(Drop)]
pub struct Sender<T: Carried> {
    line: Arc<Line<T>, Global>,
    pass: Pass<Slip<T, T::Key>, Known<T, T::Key>>,
    key: Snapshot<T::Key>,
}

impl<T: Carried> Model for Sender<T> {
    ghost use Rattle.std.specs.Prelude.{◌≡◌, [], ◌∷◌};
    ghost use Rattle.std.specs.Arc.{arc_value};
    ghost use Rattle.crossbeam_queue.specs.Passes.{view as known, IsPassOf, ruled_capacity};
    ghost use Rattle.pair_lane.specs.Lane.{Strand, strand};
    ghost use Rattle.pair_lane.specs.Rule.{sending_end};

    ghost Value = { Strand T T.Key };

    ghost view = { λ s. strand s.key.value (ruled_capacity (arc_value s.line)) (known s.pass).sent };

    ghost invariant = { λ s. IsPassOf (arc_value s.line) s.pass × (known s.pass ≡ sending_end (s.key.value ∷ []) (known s.pass).sent) };
}

impl<T: Carried> Sender<T> {
    ghost use Rattle.std.specs.Prelude.{[], ◌∷◌};
    ghost use Rattle.std.specs.Arc.{arc_value};
    ghost use Rattle.crossbeam_queue.specs.Passes.{view as known, IsPassOf, ruled_capacity};
    ghost use Rattle.pair_lane.specs.Lane.{strand};
    ghost use Rattle.pair_lane.specs.Rule.{sending_end};

    /// The end of a new lane.
    pub(crate) fn new(
        line: Arc<Line<T>, Global>,
        pass: Pass<Slip<T, T::Key>, Known<T, T::Key>>,
        key: Snapshot<T::Key>,
    ) -> Sender<T>
        requires pass { IsPassOf (arc_value line) pass }
        requires end { known pass ≡ sending_end (key.value ∷ []) [] }
        ensures { result ≡ strand key.value (ruled_capacity (arc_value line)) [] }
    {
        Sender { line, pass, key }
    }

    /// Sends an item that fits the lane's key after the items sent before it. Where the lane holds as many
    /// items as it can, the item comes back.
    pub fn send<R: Wait>(&mut self, rt: &R, item: T) -> Result<(), Full<T>>
        requires fits { T.fits self.old.key self.old.items item }
        ensures sent { OnOk result (self.new ≡ after self.old item) }
        ensures back { IfErr result (λ f. f.item ≡ item) }
        ensures unchanged { OnErr result (self.new ≡ self.old) }
        ensures full { OnErr result (IsFull self.old) }
    {
        match self
            .line
            .push_as::<Sends, R>(rt, &mut self.pass, Slip::Item(item))
        {
            Ok(()) => Ok(()),
            Err(Slip::Item(item)) => Err(Full { item }),
            Err(Slip::Opening(_)) => unreachable!(),
        }
    }
}
