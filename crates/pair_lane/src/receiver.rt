ghost use Rattle.std.specs.Prelude.{◌≡◌, IfSome, IfNone};
ghost use Rattle.pair_lane.specs.Lane.{after};

use crate::carried::Carried;
use crate::rule::{Known, Line, Receives, Slip};
use crossbeam_queue::Pass;
use std::alloc::Global;
use std::marker::Model;
use std::snapshot::Snapshot;
use std::sync::{Arc, Wait};

/// The receiving end of a lane, seen as the lane's key, its capacity and the items that it has received.
#[derive(Drop)]
pub struct Receiver<T: Carried> {
    line: Arc<Line<T>, Global>,
    pass: Pass<Slip<T, T::Key>, Known<T, T::Key>>,
    key: Snapshot<T::Key>,
}

impl<T: Carried> Model for Receiver<T> {
    ghost use Rattle.std.specs.Prelude.{◌≡◌, [], ◌∷◌};
    ghost use Rattle.std.specs.Arc.{arc_value};
    ghost use Rattle.crossbeam_queue.specs.Passes.{view as known, IsPassOf, ruled_capacity};
    ghost use Rattle.pair_lane.specs.Lane.{Strand, strand};
    ghost use Rattle.pair_lane.specs.Rule.{receiving_end};

    ghost Value = { Strand T T.Key };

    ghost view = { λ s. strand s.key.value (ruled_capacity (arc_value s.line)) (known s.pass).got };

    ghost invariant = { λ s. IsPassOf (arc_value s.line) s.pass × (known s.pass ≡ receiving_end (s.key.value ∷ []) (known s.pass).got) };
}

impl<T: Carried> Receiver<T> {
    ghost use Rattle.std.specs.Prelude.{[], ◌∷◌};
    ghost use Rattle.std.specs.Arc.{arc_value};
    ghost use Rattle.crossbeam_queue.specs.Passes.{view as known, IsPassOf, ruled_capacity};
    ghost use Rattle.pair_lane.specs.Lane.{strand};
    ghost use Rattle.pair_lane.specs.Rule.{receiving_end};

    /// The end of a new lane.
    pub(crate) fn new(
        line: Arc<Line<T>, Global>,
        pass: Pass<Slip<T, T::Key>, Known<T, T::Key>>,
        key: Snapshot<T::Key>,
    ) -> Receiver<T>
        requires pass { IsPassOf (arc_value line) pass }
        requires end { known pass ≡ receiving_end (key.value ∷ []) [] }
        ensures { result ≡ strand key.value (ruled_capacity (arc_value line)) [] }
    {
        Receiver { line, pass, key }
    }

    /// Receives the next item that was sent. It fits the lane's key after the items received before it.
    /// None comes only where at one moment of the call nothing lay on the lane.
    pub fn receive<R: Wait>(&mut self, rt: &R) -> Option<T>
        ensures received { IfSome result (λ x. self.new ≡ after self.old x) }
        ensures fits { IfSome result (λ x. T.fits self.old.key self.old.items x) }
        ensures unchanged { IfNone result (self.new ≡ self.old) }
    {
        match self.line.pop_as::<Receives<T>, R>(rt, &mut self.pass) {
            Some(Slip::Item(item)) => Some(item),
            Some(Slip::Opening(_)) => unreachable!(),
            None => None,
        }
    }
}
