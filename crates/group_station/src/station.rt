//! The station.
ghost use Rattle.std.specs.Prelude.{◌≡◌, ◌+◌, ◌<◌, ◌≤◌, ◌==◌, ◌↔◌, length, slice_index, slice_index_or, slice_set, Some, IfOk, IfErr, IfSome, IfNone, OnOk, OnErr, IsSome, IsTrue, All, is_some};
ghost use Rattle.std.specs.Option.{option_copied};
ghost use Rattle.code_forms.specs.Staged.{Fits, group_start, block_start, group_at, unit_count};
ghost use Rattle.place_queue.specs.declared.place.Place.{Place as PlaceHere};
ghost use Rattle.place_queue.specs.PlaceList.{announced, count_of};
ghost use Rattle.shard_rounds.specs.Rounds.{first_owner};
ghost use Rattle.run_laws.specs.Run.{run_of, arrivals, round_of, place_of, values_of, touched_of};
ghost use Rattle.group_station.specs.Station.{IsStation, OwnsIn, IsNextOwn, in_hand, held, width};
ghost use Rattle.group_station.specs.Steps.{first_station, first_unit, first_hand, IsGivenUnit, IsReady, after_serving, AreOwnersFor, HasAllUnits, IsRoundDone, move_in, leaving, taker_of, after_leaving, taker_of, departing, next_moves, IsUnitFor, CanTake, after_taking};
ghost use Rattle.group_station.specs.Holding.{ServesOne, given_hand, given_unit, awaited_by, awaited_after};

use capture_io::Capture;
use code_forms::{StagedCode, Unit};
use mp5_words::{NoMemory, Settings};
use place_queue::{Place, PlaceFull, Places};
use shard_rounds::{Move, Owners};
use std::alloc::Global;
use std::marker::Model;

/// A group of arrays at one pipe.
#[derive(Drop)]
pub struct Station<'a> {
    code: &'a StagedCode,
    capture: &'a Capture,
    settings: Settings,
    pipe: u32,
    group: u32,
    queue: Places,
    round: u32,
    hand: Vec<Option<Unit>>,
    counts: Vec<u32>,
    // the one unit of the present round that isn't in hand, if there is one
    awaited: Option<u32>,
}

impl<'a> Model for Station<'a> {
    ghost use Rattle.group_station.specs.Station.{Station, IsStation, IsAwaited};
    ghost use Rattle.group_station.specs.Holding.{seen};

    ghost Value = { Station };

    ghost view = { λ s. seen s.code.now s.capture.now s.settings s.pipe s.group s.queue s.round s.hand.items s.counts.items };

    ghost invariant = { λ s. IsStation (seen s.code.now s.capture.now s.settings s.pipe s.group s.queue s.round s.hand.items s.counts.items) × IsAwaited (seen s.code.now s.capture.now s.settings s.pipe s.group s.queue s.round s.hand.items s.counts.items) s.awaited };
}

impl<'a> Station<'a> {
    /// A group at a pipe before anything happened, with the units that the pipe owns before any plan.
    pub fn new(
        alloc: Global,
        code: &'a StagedCode,
        capture: &'a Capture,
        settings: &Settings,
        pipe: u32,
        group: u32,
    ) -> Result<Station<'a>, NoMemory>
        requires pipe { pipe < settings.now.pipelines }
        requires group { group < length code.now.groups }
        requires wide { All (λ header. length header ≡ code.now.fields) capture.now }
        ensures { IfOk result (λ s.
            s ≡ first_station (run_of code.now capture.now settings.now) pipe group) }
    {
        Ok(Station {
            code,
            capture,
            settings: *settings,
            pipe,
            group,
            queue: Places::new(alloc, settings.pipelines, settings.window, capture.count())?,
            round: 0,
            hand: first_hand(alloc, code, settings.pipelines, pipe, group)?,
            counts: vec![in alloc; 0; code.units(group) as usize]?,
            awaited: None,
        })
    }

    /// The pipe at which it stands.
    pub fn pipe(&self) -> u32
        ensures pipe { result ≡ self.now.pipe }
        ensures laws { IsStation self.now }
    {
        self.pipe
    }

    /// The unit of an arrival's place where it is given here: where the pipe owns it in the arrival's round.
    pub fn given(&self, t: u32, place: Option<u32>, owners: &Owners) -> Option<u32>
        requires owners { AreOwnersFor self.now owners.now }
        requires arrival { t < arrivals self.now.run }
        requires place { place ≡ place_of self.now.run t self.now.group }
        requires unit { IfSome place (λ u. u < width self.now) }
        requires known { round_of self.now.run t ≤ length owners.now.plans }
        ensures { IsGivenUnit self.now t result }
    {
        let u = place?;
        if owners.at(t / self.settings.round, self.group, u) == self.pipe {
            Some(u)
        } else {
            None
        }
    }

    /// Announces the next arrival of a source, with the unit of its place where that is given here. Refused
    /// exactly where a unit is given and the source has `window` unserved places here; then nothing changes.
    /// Takes no memory.
    pub fn announce(&mut self, source: u32, t: u32, unit: Option<u32>) -> Result<(), PlaceFull>
        requires source { source < self.old.queue.sources }
        requires turn { t ≡ slice_index self.old.queue.floors source }
        requires arrival { t < self.old.queue.arrivals }
        requires given { IsGivenUnit self.old t unit }
        ensures ok { OnOk result
            (self.new ≡ record self.old { queue = announced self.old.queue source t unit }) }
        ensures room { OnOk result
            (IfSome unit (λ _. count_of self.old.queue.unserved source < self.old.queue.window)) }
        ensures given { OnErr result (IsSome unit) }
        ensures full { OnErr result
            (count_of self.old.queue.unserved source ≡ self.old.queue.window) }
        ensures kept { OnErr result (self.new ≡ self.old) }
    {
        self.queue.announce(source, t, unit)
    }

    /// The place that can be served now: the next one, where it is of the present round and its unit is in
    /// hand. Takes no memory.
    pub fn ready(&self) -> Option<Place>
        ensures some { IfSome result (IsReady self.now) }
        ensures none { IfNone result ((p : PlaceHere) → IsReady self.now p → ⊥) }
    {
        let place = self.queue.next()?;
        if place.t / self.settings.round == self.round && is_held(&self.hand, place.unit) {
            Some(place)
        } else {
            None
        }
    }

    /// Serves a place: runs the group on its unit, and gives the set of the arrays that are touched. Takes no
    /// memory.
    pub fn serve(&mut self, place: Place, env: &mut [i32]) -> u16
        requires ready { IsReady self.old place }
        requires fits { Fits self.old.run.code (values_of self.old.run place.t)
            (group_start self.old.run.code self.old.group) env.old }
        ensures fits { Fits self.old.run.code (values_of self.old.run place.t)
            (block_start self.old.run.code (self.old.group + 1)) env.new }
        ensures touched { result ≡ touched_of self.old.run place.t self.old.group }
        ensures station { self.new ≡ after_serving self.old place }
    {
        self.queue.served();
        self.counts[place.unit as usize] += 1;
        serve_unit(self.code, self.group, env, &mut self.hand, place.unit)
    }

    /// Whether all that belongs to the present round is done: every floor is past it, no place of it is
    /// unserved, and each unit that the pipe owns in it is in hand. Takes no memory.
    pub fn is_done(&self) -> bool
        ensures { IsTrue result ↔ IsRoundDone self.now }
    {
        if self.awaited.is_some() {
            return false;
        }
        let end = (self.round + 1) * self.settings.round;
        if self.queue.floor() < end {
            return false;
        }
        match self.queue.next() {
            Some(place) => place.t >= end,
            None => true,
        }
    }

    /// Leaves the present round, by the plan that these owners know next. Gives the unit that goes to another
    /// pipe, as it stands at the end of the round, with its taker. Takes no memory.
    pub fn leave(&mut self, owners: &Owners) -> Option<(u32, Unit)>
        requires owners { AreOwnersFor self.old owners.now }
        requires next { self.old.round < length owners.now.plans }
        requires done { IsRoundDone self.old }
        ensures station { self.new ≡
            after_leaving self.old (leaving self.old (next_moves self.old owners.now)) }
        ensures gone { result ≡
            departing self.old (leaving self.old (next_moves self.old owners.now)) }
    {
        let found = move_in(owners.plan(self.round), self.group);
        self.round += 1;
        match found {
            Some(found) => {
                let gone = give_unit(&mut self.hand, found, self.pipe);
                self.awaited = awaited_unit(&self.hand, found, self.pipe);
                gone
            }
            None => None,
        }
    }

    /// The pipe to which a unit goes when the present round is left, by the plan that these owners know next. None
    /// exactly where no unit goes. Takes no memory.
    pub fn taker(&self, owners: &Owners) -> Option<u32>
        requires owners { AreOwnersFor self.now owners.now }
        requires next { self.now.round < length owners.now.plans }
        ensures taker { result ≡ taker_of (leaving self.now (next_moves self.now owners.now)) }
        ensures laws { IsStation self.now }
    {
        let found = move_in(owners.plan(self.round), self.group)?;
        if found.giver == self.pipe {
            Some(found.taker)
        } else {
            None
        }
    }

    /// Takes a unit into hand for a round. It comes back where it is in hand already, or where that isn't the
    /// first known round from the present one on in which the pipe owns it. Takes no memory.
    pub fn take(&mut self, from: u32, unit: Unit, owners: &Owners) -> Result<(), Unit>
        requires owners { AreOwnersFor self.old owners.now }
        requires fits { IsUnitFor self.old from unit }
        ensures ok { OnOk result (self.new ≡ after_taking self.old unit) }
        ensures can { OnOk result (CanTake self.old owners.now from unit.number) }
        ensures back { IfErr result (λ back. back ≡ unit) }
        ensures kept { OnErr result (self.new ≡ self.old) }
        ensures cannot { OnErr result (CanTake self.old owners.now from unit.number → ⊥) }
    {
        if is_held(&self.hand, unit.number) || !self.is_next_own(from, unit.number, owners) {
            return Err(unit);
        }
        self.awaited = still_awaited(self.awaited, from, self.round);
        put_unit(&mut self.hand, unit);
        Ok(())
    }

    /// Whether each unit that the pipe owns in the present round is in hand. Takes no memory.
    pub fn has_all(&self) -> bool
        ensures all { IsTrue result ↔ HasAllUnits self.now }
        ensures laws { IsStation self.now }
    {
        self.awaited.is_none()
    }

    // Whether a round in which the pipe owns the unit is the first known one from the present one on.
    fn is_next_own(&self, from: u32, u: u32, owners: &Owners) -> bool
        requires owners { AreOwnersFor self.now owners.now }
        requires unit { u < width self.now }
        requires owned { OwnsIn self.now from u }
        ensures { IsTrue result ↔ (from ≤ length owners.now.plans) × IsNextOwn self.now u from }
    {
        if from < self.round || from > owners.applied() {
            return false;
        }
        for d in self.round..from {
            if owners.at(d, self.group, u) == self.pipe {
                return false;
            }
        }
        true
    }

    /// The unit with a number, where it is in hand.
    pub fn unit(&self, u: u32) -> Option<&Unit>
        requires { u < width self.now }
        ensures unit { option_copied result ≡ in_hand self.now u }
        ensures laws { IsStation self.now }
    {
        self.hand[u as usize].as_ref()
    }

    /// How many places of a unit were served here.
    pub fn count(&self, u: u32) -> u32
        requires { u < width self.now }
        ensures count { result ≡ slice_index self.now.served u }
        ensures laws { IsStation self.now }
    {
        self.counts[u as usize]
    }

    /// The present round.
    pub fn round(&self) -> u32
        ensures round { result ≡ self.now.round }
        ensures laws { IsStation self.now }
    {
        self.round
    }

    /// The floors and the unserved places.
    pub fn queue(&self) -> &Places
        ensures queue { result.now ≡ self.now.queue }
        ensures laws { IsStation self.now }
    {
        &self.queue
    }
}

// Whether a unit is in hand.
fn is_held(hand: &[Option<Unit>], u: u32) -> bool
    ensures { result ≡ is_some (held hand.now u) }
{
    match hand.get(u as usize) {
        Some(unit) => unit.is_some(),
        None => false,
    }
}

// The move of a group, if there is one.
fn move_in(moves: &[Move], group: u32) -> Option<Move>
    ensures { result ≡ move_in group moves.now }
{
    for found in moves {
        if found.group == group {
            return Some(*found);
        }
    }
    None
}

// Takes the unit of a move out of the hand, where this pipe is its giver, and gives it with its taker.
fn give_unit(hand: &mut [Option<Unit>], found: Move, pipe: u32) -> Option<(u32, Unit)>
    requires { found.unit < length hand.old }
    ensures hand { hand.new ≡ given_hand pipe hand.old found }
    ensures unit { result ≡ given_unit pipe hand.old found }
{
    if found.giver != pipe {
        return None;
    }
    match hand[found.unit as usize].take() {
        Some(unit) => Some((found.taker, unit)),
        None => None,
    }
}

// The unit of a move, where this pipe takes it and it isn't in hand.
fn awaited_unit(hand: &[Option<Unit>], found: Move, pipe: u32) -> Option<u32>
    ensures { result ≡ awaited_by pipe hand.now found }
{
    if found.taker == pipe && !is_held(hand, found.unit) {
        Some(found.unit)
    } else {
        None
    }
}

// The unit that is awaited after one was taken for a round.
fn still_awaited(awaited: Option<u32>, from: u32, round: u32) -> Option<u32>
    ensures { result ≡ awaited_after round from awaited }
{
    if from == round { None } else { awaited }
}

// Puts a unit into the hand.
fn put_unit(hand: &mut [Option<Unit>], unit: Unit)
    requires { unit.number < length hand.old }
    ensures { hand.new ≡ slice_set hand.old unit.number (Some unit) }
{
    let number = unit.number as usize;
    hand[number] = Some(unit);
}

// The units of a group that a pipe owns before any plan.
fn first_hand(
    alloc: Global,
    code: &StagedCode,
    pipelines: u32,
    pipe: u32,
    group: u32,
) -> Result<Vec<Option<Unit>>, NoMemory>
    requires some { 0 < pipelines }
    requires group { group < length code.now.groups }
    ensures { IfOk result (λ hand. hand.items ≡ first_hand code.now pipelines pipe group
        (unit_count code.now (group_at code.now group))) }
{
    let units = code.units(group);
    let mut hand = Vec::with_capacity(alloc, units as usize)?;
    for u in 0..units {
        hand.push_reserved(first_unit(alloc, code, pipelines, pipe, group, u)?);
    }
    Ok(hand)
}

// A unit with its start cells, where the pipe owns it before any plan.
fn first_unit(
    alloc: Global,
    code: &StagedCode,
    pipelines: u32,
    pipe: u32,
    group: u32,
    u: u32,
) -> Result<Option<Unit>, NoMemory>
    requires some { 0 < pipelines }
    requires group { group < length code.now.groups }
    requires unit { u < unit_count code.now (group_at code.now group) }
    ensures { IfOk result (λ unit. unit ≡ first_unit code.now pipelines pipe group u) }
{
    if is_first_owner(pipelines, pipe, group, u) {
        Ok(Some(code.unit(alloc, group, u)?))
    } else {
        Ok(None)
    }
}

// Whether the pipe owns a unit before any plan.
fn is_first_owner(pipelines: u32, pipe: u32, group: u32, u: u32) -> bool
    requires { 0 < pipelines }
    ensures { result ≡ (first_owner pipelines group u == pipe) }
{
    (u64::from(u) + u64::from(group)) % u64::from(pipelines) == u64::from(pipe)
}

// Runs the group on the unit with a number, which is in hand.
fn serve_unit(code: &StagedCode, g: u32, env: &mut [i32], hand: &mut [Option<Unit>], u: u32) -> u16
    requires group { g < length code.now.groups }
    requires here { IsSome (held hand.old u) }
    ensures { ServesOne code.now g u env.old env.new hand.old hand.new result }
{
    match &mut hand[u as usize] {
        Some(unit) => code.serve(g, env, unit),
        None => unreachable!(),
    }
}
