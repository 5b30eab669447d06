//! The stations of a pipe.
ghost use Rattle.std.specs.Prelude.{◌≡◌, ◌+◌, ◌<◌, ◌≤◌, ◌↔◌, ℕ, length, slice_index, slice_index_or, IfOk, IfErr, IfSome, OnOk, OnErr, IsTrue, IsFalse, IsSome, None, All};
ghost use Rattle.place_queue.specs.PlaceList.{count_of};
ghost use Rattle.run_laws.specs.Run.{run_of, arrivals, round_of, last_round};
ghost use Rattle.packet_steps.specs.Packet.{IsPacket};
ghost use Rattle.group_station.specs.Steps.{first_station, IsReady, IsUnitFor, CanTake, IsRoundDone, after_serving, after_taking, after_leaving, departing};
ghost use Rattle.group_station.specs.Station.{Station as StationHere};
ghost use Rattle.pipe_stations.specs.Row.{IsRow, station_at, with_station, first_row, first_stations};
ghost use Rattle.pipe_stations.specs.RowSteps.{AreRowOwners, leaving_at, ArePlaces, coded_unit, IsTurn, AreGivenUnits, after_announcing, CanAnnounce, HaveHeard, IsAnnounced, HasRoom, HasRoomAt, IsFull, IsFullFor, FloorsAreFrom, IsStationFinished};

use capture_io::Capture;
use code_forms::{StagedCode, Unit};
use group_station::Station;
use mp5_words::{NoMemory, Settings};
use packet_steps::RunData;
use pipe_parts::Packet;
use place_queue::{Place, PlaceFull};
use shard_rounds::Owners;
use std::alloc::Global;
use std::marker::Model;

/// The stations of a pipe, one for each group of arrays.
#[derive(Drop)]
pub struct Stations<'a> {
    code: &'a StagedCode,
    capture: &'a Capture,
    settings: Settings,
    pipe: u32,
    stations: Vec<Station<'a>>,
}

impl<'a> Model for Stations<'a> {
    ghost use Rattle.pipe_stations.specs.Row.{Row, IsRow, row_of};

    ghost Value = { Row };

    ghost view = { λ s. row_of s.code.now s.capture.now s.settings s.pipe s.stations.items };

    ghost invariant = { λ s.
        IsRow (row_of s.code.now s.capture.now s.settings s.pipe s.stations.items) };
}

impl<'a> Stations<'a> {
    /// The stations of all groups before anything happened, with the units that the pipe owns before
    /// any plan.
    pub fn new(
        alloc: Global,
        code: &'a StagedCode,
        capture: &'a Capture,
        settings: &Settings,
        pipe: u32,
    ) -> Result<Stations<'a>, NoMemory>
        requires pipe { pipe < settings.now.pipelines }
        requires wide { All (λ header. length header ≡ code.now.fields) capture.now }
        ensures row { IfOk result (λ s.
            s ≡ first_row (run_of code.now capture.now settings.now) pipe) }
        ensures each { IfOk result (λ s. (g : ℕ) → g < length code.now.groups → station_at s g
            ≡ first_station (run_of code.now capture.now settings.now) pipe g) }
    {
        Ok(Stations {
            code,
            capture,
            settings: *settings,
            pipe,
            stations: first_stations(alloc, code, capture, settings, pipe)?,
        })
    }

    /// How many stations there are: as many as the code has groups.
    pub fn len(&self) -> u32
        ensures count { result ≡ length self.now.stations }
        ensures laws { IsRow self.now }
    {
        self.stations.len() as u32
    }

    /// The station of a group.
    pub fn get(&self, g: u32) -> &Station<'a>
        requires { g < length self.now.stations }
        ensures station { result.now ≡ station_at self.now g }
        ensures laws { IsRow self.now }
    {
        &self.stations[g as usize]
    }

    /// Takes a unit of a group into hand for a round. It comes back where it is in hand already, or
    /// where that isn't the first known round from the present one of the group on in which the pipe
    /// owns it. Takes no memory.
    pub fn take(&mut self, from: u32, unit: Unit, owners: &Owners) -> Result<(), Unit>
        requires owners { AreRowOwners self.old owners.now }
        requires group { unit.group < length self.old.stations }
        requires fits { IsUnitFor (station_at self.old unit.group) from unit }
        ensures ok { OnOk result (self.new ≡ with_station self.old unit.group
            (after_taking (station_at self.old unit.group) unit)) }
        ensures can { OnOk result
            (CanTake (station_at self.old unit.group) owners.now from unit.number) }
        ensures back { IfErr result (λ back. back ≡ unit) }
        ensures kept { OnErr result (self.new ≡ self.old) }
        ensures cannot { OnErr result
            (CanTake (station_at self.old unit.group) owners.now from unit.number → ⊥) }
    {
        self.stations[unit.group as usize].take(from, unit, owners)
    }

    /// A group leaves its present round, by the plan that these owners know next. Gives the unit that
    /// goes to another pipe, as it stands at the end of the round, with its taker. Takes no memory.
    pub fn leave(&mut self, g: u32, owners: &Owners) -> Option<(u32, Unit)>
        requires group { g < length self.old.stations }
        requires owners { AreRowOwners self.old owners.now }
        requires next { (station_at self.old g).round < length owners.now.plans }
        requires done { IsRoundDone (station_at self.old g) }
        ensures station { self.new ≡ with_station self.old g
            (after_leaving (station_at self.old g) (leaving_at self.old g owners.now)) }
        ensures gone { result ≡
            departing (station_at self.old g) (leaving_at self.old g owners.now) }
    {
        self.stations[g as usize].leave(owners)
    }

    /// Serves a packet at the station of its group, where its place is ready. Takes no memory.
    pub fn serve(&mut self, run: &RunData<'a>, g: u32, place: Place, packet: &mut Packet)
        requires run { run.now ≡ self.old.run }
        requires group { g < length self.old.stations }
        requires ready { IsReady (station_at self.old g) place }
        requires packet { IsPacket self.old.run packet.old }
        requires here { packet.old.g ≡ g }
        requires place { packet.old.t ≡ place.t }
        ensures station { self.new ≡
            with_station self.old g (after_serving (station_at self.old g) place) }
        ensures packet { IsPacket self.old.run packet.new }
        ensures group { packet.new.g ≡ g + 1 }
        ensures arrival { packet.new.t ≡ packet.old.t }
        ensures units { packet.new.units ≡ packet.old.units }
    {
        run.serve(&mut self.stations[g as usize], place, packet);
    }

    /// Announces the next arrival of a source at all groups, at each of them with the unit of its place
    /// where that is given there. `units` has its places as numbers: 0 without a place, else 1 more
    /// than the unit. Refused exactly where at some group a unit is given and the source has `window`
    /// unserved places; then nothing changes. Takes no memory.
    pub fn announce(
        &mut self,
        source: u32,
        t: u32,
        units: &[u32; 16],
        owners: &Owners,
    ) -> Result<(), PlaceFull>
        requires source { source < self.old.run.settings.pipelines }
        requires arrival { t < arrivals self.old.run }
        requires units { ArePlaces self.old.run t units.now }
        requires owners { AreRowOwners self.old owners.now }
        requires known { round_of self.old.run t ≤ length owners.now.plans }
        requires turn { IsTurn self.old source t }
        ensures ok { OnOk result (IsAnnounced self.old self.new source t) }
        ensures room { OnOk result (HasRoom self.old source t) }
        ensures kept { OnErr result (self.new ≡ self.old) }
        ensures full { OnErr result (IsFull self.old source t) }
    {
        let given = self.given(t, units, owners);
        if !self.has_room(source, &given) {
            return Err(PlaceFull);
        }
        announce_all(&mut self.stations, source, t, &given);
        Ok(())
    }

    // The units of an arrival's places that are given here, by group.
    fn given(&self, t: u32, units: &[u32; 16], owners: &Owners) -> [Option<u32>; 16]
        requires arrival { t < arrivals self.now.run }
        requires units { ArePlaces self.now.run t units.now }
        requires owners { AreRowOwners self.now owners.now }
        requires known { round_of self.now.run t ≤ length owners.now.plans }
        ensures { AreGivenUnits self.now t result }
    {
        let mut given = [None; 16];
        for g in 0..self.stations.len() {
            given[g] = self.stations[g].given(t, coded_unit(units[g]), owners);
        }
        given
    }

    // Whether a source has fewer than `window` unserved places at each group at which a unit is given.
    fn has_room(&self, source: u32, given: &[Option<u32>; 16]) -> bool
        requires { source < self.now.run.settings.pipelines }
        ensures room { IsTrue result → (g : ℕ) → g < length self.now.stations
            → HasRoomAt (station_at self.now g) source (slice_index_or given.now g None) }
        ensures full { IsFalse result → IsFullFor self.now source given.now }
    {
        for g in 0..self.stations.len() {
            if !has_room(&self.stations[g], source, given[g], self.settings.window) {
                return false;
            }
        }
        true
    }

    /// Whether every floor of every station is at least `end`: each arrival before it is announced at
    /// each group. Takes no memory.
    pub fn floors_reach(&self, end: u32) -> bool
        ensures { IsTrue result ↔ All (FloorsAreFrom end) self.now.stations }
    {
        for station in &self.stations {
            if !floors_are_from(station, end) {
                return false;
            }
        }
        true
    }

    /// Whether all that the stations had to do is done: at each of them every floor is past all
    /// arrivals, no place is unserved, and each unit that the pipe owns in the present round, which is
    /// the last one, is in hand. Takes no memory.
    pub fn is_finished(&self) -> bool
        ensures { IsTrue result ↔ All IsStationFinished self.now.stations }
    {
        let arrivals = self.capture.count();
        let last = arrivals.saturating_sub(1) / self.settings.round;
        for station in &self.stations {
            if !is_finished(station, arrivals, last) {
                return false;
            }
        }
        true
    }
}

// The stations of all groups before anything happened.
fn first_stations<'a>(
    alloc: Global,
    code: &'a StagedCode,
    capture: &'a Capture,
    settings: &Settings,
    pipe: u32,
) -> Result<Vec<Station<'a>>, NoMemory>
    requires pipe { pipe < settings.now.pipelines }
    requires wide { All (λ header. length header ≡ code.now.fields) capture.now }
    ensures items { IfOk result (λ stations. stations.items ≡ first_stations
        (run_of code.now capture.now settings.now) pipe (length code.now.groups)) }
    ensures few { length code.now.groups ≤ 16 }
{
    let groups = code.groups();
    let mut stations = Vec::with_capacity(alloc, groups as usize)?;
    for g in 0..groups {
        stations.push_reserved(Station::new(alloc, code, capture, settings, pipe, g)?);
    }
    Ok(stations)
}

// The unit of a place as a number, if there is one.
fn coded_unit(number: u32) -> Option<u32>
    ensures { result ≡ coded_unit number }
{
    if number == 0 { None } else { Some(number - 1) }
}

// Whether a source has fewer than `window` unserved places at a station, where a unit is given there.
fn has_room(station: &Station<'_>, source: u32, unit: Option<u32>, window: u32) -> bool
    requires source { source < station.now.run.settings.pipelines }
    requires window { window ≡ station.now.run.settings.window }
    ensures room { IsTrue result → HasRoomAt station.now source unit }
    ensures given { IsFalse result → IsSome unit }
    ensures full { IsFalse result → count_of station.now.queue.unserved source ≡ window }
{
    let queue = station.queue();
    unit.is_none() || queue.waiting(source) < window
}

// Announces an arrival at all stations, each of which has room for it.
fn announce_all(stations: &mut [Station<'_>], source: u32, t: u32, given: &[Option<u32>; 16])
    requires few { length stations.old ≤ 16 }
    requires each { (g : ℕ) (s : StationHere) → g < length stations.old
        → CanAnnounce (slice_index_or stations.old g s) source t (slice_index_or given.now g None) }
    ensures { HaveHeard stations.old stations.new source t given.now }
{
    for g in 0..stations.len() {
        announce_at(&mut stations[g], source, t, given[g]);
    }
}

// Announces an arrival at a station, which has room for it.
fn announce_at(station: &mut Station<'_>, source: u32, t: u32, unit: Option<u32>)
    requires { CanAnnounce station.old source t unit }
    ensures { station.new ≡ after_announcing station.old source t unit }
{
    match station.announce(source, t, unit) {
        Ok(()) => {}
        Err(PlaceFull) => unreachable!(),
    }
}

// Whether every floor of a station is at least `end`.
fn floors_are_from(station: &Station<'_>, end: u32) -> bool
    ensures { IsTrue result ↔ FloorsAreFrom end station.now }
{
    station.queue().floor() >= end
}

// Whether all that a station had to do is done.
fn is_finished(station: &Station<'_>, count: u32, last: u32) -> bool
    requires count { count ≡ arrivals station.now.run }
    requires last { last ≡ last_round station.now.run }
    ensures { IsTrue result ↔ IsStationFinished station.now }
{
    if station.queue().floor() < count {
        return false;
    }
    if station.queue().next().is_some() {
        return false;
    }
    if station.round() < last {
        return false;
    }
    station.has_all()
}
