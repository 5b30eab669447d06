//! The steps of a packet.
ghost use Rattle.std.specs.Prelude.{◌≡◌, ◌+◌, ◌<◌, ◌≤◌, ◌++◌, length, drop, All, slice_set};
ghost use Rattle.code_forms.specs.Staged.{slot_count, group_start, block_start, Fits};
ghost use Rattle.code_forms.specs.StagedMeaning.{Leads, Always, IsUnplaced, last_words};
ghost use Rattle.run_laws.specs.Run.{run_of, arrivals, round_of, values_of, touched_of};
ghost use Rattle.group_station.specs.Steps.{IsReady, after_serving};
ghost use Rattle.packet_steps.specs.Packet.{IsOnWay, IsPacket};
ghost use Rattle.packet_steps.specs.Heading.{AreRunOwners, HasNoPlace, IsHeading};

use crate::heading::Heading;
use capture_io::Capture;
use code_forms::StagedCode;
use group_station::Station;
use mp5_words::Settings;
use pipe_parts::{Env, Packet};
use place_queue::Place;
use shard_rounds::Owners;
use std::marker::Model;

/// What a run is given: staged code, the headers of all arrivals, and the settings. Seen as the run.
#[derive(Drop)]
pub struct RunData<'a> {
    pub code: &'a StagedCode,
    pub capture: &'a Capture,
    pub settings: Settings,
}

impl<'a> Model for RunData<'a> {
    ghost use Rattle.std.specs.Prelude.{◌≡◌, length};
    ghost use Rattle.std.specs.List.{All};
    ghost use Rattle.run_laws.specs.Run.{Run, run_of};

    ghost Value = { Run };

    ghost view = { λ r. run_of r.code.now r.capture.now r.settings };

    ghost invariant = { λ r. All (λ header. length header ≡ r.code.now.fields) r.capture.now };
}

impl<'a> RunData<'a> {
    /// A run of code on headers that have a word for each field.
    pub fn new(code: &'a StagedCode, capture: &'a Capture, settings: &Settings) -> RunData<'a>
        requires wide { All (λ header. length header ≡ code.now.fields) capture.now }
        ensures { result ≡ run_of code.now capture.now settings.now }
    {
        RunData {
            code,
            capture,
            settings: *settings,
        }
    }

    /// The packet of an arrival that enters, right before the first group. What stood in `env` before plays no
    /// part. What stands in `room` afterwards is open.
    pub fn enter(&self, t: u32, mut env: Env, room: &mut [i32]) -> Packet
        requires arrival { t < arrivals self.now }
        requires env { length env ≡ slot_count self.now.code }
        requires room { length room.old ≡ slot_count self.now.code }
        ensures packet { IsPacket self.now result }
        ensures arrival { result.t ≡ t }
        ensures start { result.g ≡ 0 }
    {
        lay_in(self.capture.header(t), &mut env);
        run_block(self.code, 0, &mut env);
        self.arrive(t, 0, env, [255; 16], [0; 16], room)
    }

    /// The packet of an arrival that came from another pipe, where it was a packet of the run. What stands in
    /// `room` afterwards is open.
    pub fn arrive(
        &self,
        t: u32,
        g: u32,
        env: Env,
        by: [u8; 16],
        touched: [u16; 16],
        room: &mut [i32],
    ) -> Packet
        requires way { IsOnWay self.now t g env by touched }
        requires room { length room.old ≡ slot_count self.now.code }
        ensures packet { IsPacket self.now result }
        ensures arrival { result.t ≡ t }
        ensures group { result.g ≡ g }
        ensures env { result.env ≡ env }
        ensures by { result.by ≡ by }
        ensures touched { result.touched ≡ touched }
    {
        let mut units = [0; 16];
        self.code.places(self.capture.header(t), room, &mut units);
        Packet {
            t,
            g,
            env,
            by,
            touched,
            units,
        }
    }

    /// What a packet does next at a pipe. The owners are known up to the arrival's round.
    pub fn heading(&self, pipe: u32, packet: &Packet, owners: &Owners) -> Heading
        requires packet { IsPacket self.now packet.now }
        requires owners { AreRunOwners self.now owners.now }
        requires known { round_of self.now packet.now.t ≤ length owners.now.plans }
        ensures { IsHeading self.now pipe packet.now result }
    {
        if packet.g == self.code.groups() {
            self.home_heading(pipe, packet)
        } else {
            self.group_heading(pipe, packet, owners)
        }
    }

    // What a packet does next that has passed all groups.
    fn home_heading(&self, pipe: u32, packet: &Packet) -> Heading
        requires { packet.now.g ≡ length self.now.code.groups }
        ensures { IsHeading self.now pipe packet.now result }
    {
        let home = packet.t % self.settings.pipelines;
        if home == pipe {
            Heading::TakeHome
        } else {
            Heading::GoHome(home)
        }
    }

    // What a packet does next at its group.
    fn group_heading(&self, pipe: u32, packet: &Packet, owners: &Owners) -> Heading
        requires packet { IsPacket self.now packet.now }
        requires group { packet.now.g < length self.now.code.groups }
        requires owners { AreRunOwners self.now owners.now }
        requires known { round_of self.now packet.now.t ≤ length owners.now.plans }
        ensures { IsHeading self.now pipe packet.now result }
    {
        let place = packet.units[packet.g as usize];
        if place == 0 {
            return Heading::Skip;
        }
        let round = packet.t / self.settings.round;
        let owner = owners.at(round, packet.g, place - 1);
        if owner == pipe {
            Heading::Serve
        } else {
            Heading::Pass(owner)
        }
    }

    /// Takes a packet past a group at which it has no place.
    pub fn skip(&self, packet: &mut Packet)
        requires packet { IsPacket self.now packet.old }
        requires group { HasNoPlace self.now packet.old }
        ensures packet { IsPacket self.now packet.new }
        ensures group { packet.new.g ≡ packet.old.g + 1 }
        ensures arrival { packet.new.t ≡ packet.old.t }
        ensures units { packet.new.units ≡ packet.old.units }
    {
        skip_group(self.code, packet.g, &mut packet.env);
        run_block(self.code, packet.g + 1, &mut packet.env);
        packet.g += 1;
    }

    /// Serves a packet at a station of its group, where its place is ready.
    pub fn serve(&self, station: &mut Station<'a>, place: Place, packet: &mut Packet)
        requires packet { IsPacket self.now packet.old }
        requires run { station.old.run ≡ self.now }
        requires group { station.old.group ≡ packet.old.g }
        requires ready { IsReady station.old place }
        requires place { place.t ≡ packet.old.t }
        ensures station { station.new ≡ after_serving station.old place }
        ensures packet { IsPacket self.now packet.new }
        ensures group { packet.new.g ≡ packet.old.g + 1 }
        ensures arrival { packet.new.t ≡ packet.old.t }
        ensures units { packet.new.units ≡ packet.old.units }
        ensures by { packet.new.by ≡ slice_set packet.old.by packet.old.g station.old.pipe }
        ensures touched { packet.new.touched ≡ slice_set packet.old.touched packet.old.g
            (touched_of self.now packet.old.t packet.old.g) }
    {
        let g = packet.g as usize;
        packet.by[g] = station.pipe() as u8;
        packet.touched[g] = serve_group(station, place, &mut packet.env);
        packet.g += 1;
        run_block(self.code, packet.g, &mut packet.env);
    }

    /// Writes the last value of each field of a packet that has passed all groups.
    pub fn finish(&self, packet: &Packet, fields: &mut [i32])
        requires packet { IsPacket self.now packet.now }
        requires group { packet.now.g ≡ length self.now.code.groups }
        requires fields { length fields.old ≡ self.now.code.fields }
        ensures { fields.new ≡ last_words self.now.code (values_of self.now packet.now.t) }
    {
        self.code.finish(packet.env.words(), fields);
    }
}

// Puts the header into the first words.
fn put_header(header: &[i32], words: &mut [i32])
    requires { length header.now ≤ length words.old }
    ensures { words.new ≡ header.now ++ drop (length header.now) words.old }
{
    let (front, _) = words.split_at_mut(header.len());
    front.copy_from_slice(header);
}

// Puts the header into the first slots.
fn lay_in(header: &[i32], env: &mut Env)
    requires { length header.now ≤ length env.old }
    ensures { env.new ≡ header.now ++ drop (length header.now) env.old }
{
    put_header(header, env.words_mut());
}

// Runs a block.
fn run_block(code: &StagedCode, b: u32, env: &mut Env)
    requires { b ≤ length code.now.groups }
    ensures { Leads code.now Always (block_start code.now b) (group_start code.now b)
        env.old env.new }
{
    code.run_block(b, env.words_mut());
}

// Runs a group at which the header has no place.
fn skip_group(code: &StagedCode, g: u32, env: &mut Env)
    requires { g < length code.now.groups }
    ensures { Leads code.now (IsUnplaced code.now g) (group_start code.now g)
        (block_start code.now (g + 1)) env.old env.new }
{
    code.skip(g, env.words_mut());
}

// Serves a place, and gives the set of the arrays that are touched.
fn serve_group(station: &mut Station, place: Place, env: &mut Env) -> u16
    requires ready { IsReady station.old place }
    requires fits { Fits station.old.run.code (values_of station.old.run place.t)
        (group_start station.old.run.code station.old.group) env.old }
    ensures fits { Fits station.old.run.code (values_of station.old.run place.t)
        (block_start station.old.run.code (station.old.group + 1)) env.new }
    ensures touched { result ≡ touched_of station.old.run place.t station.old.group }
    ensures station { station.new ≡ after_serving station.old place }
{
    station.serve(place, env.words_mut())
}
