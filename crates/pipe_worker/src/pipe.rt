//! A pipe, what it shows, and the plans that it learns.
ghost use Rattle.std.specs.Prelude.{◌≡◌, ◌+◌, ◌-◌, ◌/◌, ◌<◌, ◌≤◌, ◌↔◌, ◌++◌, ◌∷◌, [], length, map, drop, slice_index, All, IfOk, IfSome, IfNone, IsTrue};
ghost use Rattle.std.specs.Option.{option_copied};
ghost use Rattle.code_forms.specs.Staged.{unit_count};
ghost use Rattle.pipe_parts.specs.EntryList.{entry_of};
ghost use Rattle.pipe_parts.specs.Waiting.{with_waiting};
ghost use Rattle.shard_rounds.specs.Rounds.{unmoved};
ghost use Rattle.egress_order.specs.OwnPackets.{left_count};
ghost use Rattle.run_laws.specs.Run.{run_of, arrivals, home_of};
ghost use Rattle.run_laws.specs.LawfulPlans.{AreLawful};
ghost use Rattle.group_station.specs.Station.{IsStation, in_hand, width};
ghost use Rattle.pipe_stations.specs.Row.{IsRow};
ghost use Rattle.pipe_stations.specs.RowSteps.{IsStationFinished};
ghost use Rattle.pipe_messages.specs.Messages.{IsMessage};
ghost use Rattle.pipe_worker.specs.Pipe.{first_pipe, waiting, station, outbox_room};
ghost use Rattle.pipe_worker.specs.Laws.{IsPipe};

use capture_io::Capture;
use code_forms::{StagedCode, Unit};
use egress_order::HomeExit;
use home_door::HomeDoor;
use mp5_words::{NoMemory, Settings};
use packet_lines::PacketLines;
use packet_steps::RunData;
use pipe_messages::Message;
use pipe_parts::Outbox;
use pipe_stations::Stations;
use shard_rounds::{Owners, Plan};
use std::alloc::Global;
use std::marker::Model;

/// A pipe of a run, seen as the run and its number, the known plans with the owners that they make, its own arrivals, the
/// packets that are here, the station of each group, and the messages that wait for each pipe.
#[derive(Drop)]
pub struct Pipe<'a> {
    pub(crate) run: RunData<'a>,
    pub(crate) pipe: u32,
    pub(crate) owners: Owners,
    pub(crate) door: HomeDoor,
    pub(crate) packets: PacketLines,
    pub(crate) row: Stations<'a>,
    pub(crate) outbox: Outbox<Message>,
    // room for the header run, and for the last fields of a packet
    pub(crate) slots: Vec<i32>,
    pub(crate) fields: Vec<i32>,
}

impl<'a> Model for Pipe<'a> {
    ghost use Rattle.std.specs.Prelude.{◌≡◌, length};
    ghost use Rattle.code_forms.specs.Staged.{slot_count};
    ghost use Rattle.pipe_worker.specs.Pipe.{Pipe};
    ghost use Rattle.pipe_worker.specs.Laws.{IsPipe};

    ghost Value = { Pipe };

    ghost view = { λ p. record { run = p.run; pipe = p.pipe; owners = p.owners; door = p.door; packets = p.packets; row = p.row; outbox = p.outbox } };

    ghost invariant = { λ p. IsPipe record { run = p.run; pipe = p.pipe; owners = p.owners; door = p.door; packets = p.packets; row = p.row; outbox = p.outbox } × (length p.slots.items ≡ slot_count p.run.code) × (length p.fields.items ≡ p.run.code.fields) };
}

impl<'a> Pipe<'a> {
    /// A pipe before anything happened, with the units that it owns before any plan.
    pub fn new(
        alloc: Global,
        code: &'a StagedCode,
        capture: &'a Capture,
        settings: &Settings,
        number: u32,
    ) -> Result<Pipe<'a>, NoMemory>
        requires number { number < settings.now.pipelines }
        requires wide { All (λ header. length header ≡ code.now.fields) capture.now }
        ensures { IfOk result (λ p. p ≡ first_pipe (run_of code.now capture.now settings.now) number) }
    {
        let count = capture.count();
        let pipelines = settings.pipelines;
        let window = settings.window;
        Ok(Pipe {
            run: RunData::new(code, capture, settings),
            pipe: number,
            owners: owners(alloc, code, pipelines, last_round(count, settings))?,
            door: HomeDoor::new(
                alloc,
                number,
                pipelines,
                count,
                window,
                code.fields(),
                code.slots(),
            )?,
            packets: PacketLines::new(alloc, count, pipelines, window)?,
            row: Stations::new(alloc, code, capture, settings, number)?,
            outbox: Outbox::new(alloc, pipelines, 2 * window + 16)?,
            slots: vec![in alloc; 0; code.slots() as usize]?,
            fields: vec![in alloc; 0; code.fields() as usize]?,
        })
    }

    /// Learns the next plan of the run. Takes no memory.
    pub fn learn_plan(&mut self, plan: &Plan)
        requires { AreLawful self.old.run (self.old.owners.plans ++ plan.now.moves.items ∷ []) }
        ensures { self.new ≡ record self.old {
          owners = record self.old.owners {
            plans = self.old.owners.plans ++ plan.now.moves.items ∷ [];
          };
        } }
    {
        self.owners.apply(plan);
    }

    /// Takes the first message that waits for a pipe. None exactly where none does. Takes no memory.
    pub fn take_out(&mut self, to: u32) -> Option<Message>
        requires { to < self.old.run.settings.pipelines }
        ensures first { IfSome result (λ m. waiting self.old to ≡ m ∷ waiting self.new to) }
        ensures law { IfSome result (λ m. IsMessage self.old.run self.old.pipe to m) }
        ensures rest { self.new ≡ record self.old {
          outbox = with_waiting self.old.outbox to (drop 1 (waiting self.old to));
        } }
        ensures none { IfNone result (waiting self.old to ≡ []) }
    {
        self.outbox.pop(to)
    }

    // How many messages may wait for each pipe.
    pub(crate) fn room(&self) -> u32
        ensures room { result ≡ outbox_room self.now.run }
        ensures laws { IsPipe self.now }
    {
        2 * self.run.settings.window + 16
    }

    /// The own packets, in order of arrival.
    pub fn exit(&self) -> &HomeExit
        ensures exit { result.now ≡ self.now.door.exit }
        ensures laws { IsPipe self.now }
    {
        self.door.exit()
    }

    /// A unit, where it is in hand.
    pub fn unit(&self, g: u32, u: u32) -> Option<&Unit>
        requires group { g < length self.now.run.code.groups }
        requires unit { u < width (station self.now g) }
        ensures unit { option_copied result ≡ in_hand (station self.now g) u }
        ensures station { IsStation (station self.now g) }
        ensures laws { IsPipe self.now }
    {
        prove!(g < self.row.len());
        self.row.get(g).unit(u)
    }

    /// How many places of a unit this pipe has served.
    pub fn count(&self, g: u32, u: u32) -> u32
        requires group { g < length self.now.run.code.groups }
        requires unit { u < width (station self.now g) }
        ensures count { result ≡ slice_index (station self.now g).served u }
        ensures station { IsStation (station self.now g) }
        ensures laws { IsPipe self.now }
    {
        prove!(g < self.row.len());
        self.row.get(g).count(u)
    }

    /// The pipe that served own arrival `t`, which has left, at group `g`; 255 where none did.
    pub fn by(&self, t: u32, g: u32) -> u8
        requires arrival { t < arrivals self.now.run }
        requires own { home_of self.now.run t ≡ self.now.pipe }
        requires group { g < length self.now.run.code.groups }
        ensures by { result ≡ slice_index
            (entry_of self.now.door.entries (t / self.now.run.settings.pipelines)).by g }
        ensures laws { IsPipe self.now }
    {
        prove!(g < self.run.code.groups());
        self.door.by(t, g)
    }

    /// The arrays that own arrival `t`, which has left, touched at group `g`, bit `a` for array `a`.
    pub fn touched(&self, t: u32, g: u32) -> u16
        requires arrival { t < arrivals self.now.run }
        requires own { home_of self.now.run t ≡ self.now.pipe }
        requires group { g < length self.now.run.code.groups }
        ensures touched { result ≡ slice_index
            (entry_of self.now.door.entries (t / self.now.run.settings.pipelines)).touched g }
        ensures laws { IsPipe self.now }
    {
        prove!(g < self.run.code.groups());
        self.door.touched(t, g)
    }

    /// How many own arrivals have entered.
    pub fn entered(&self) -> u32
        ensures entered { result ≡ self.now.door.exit.entered }
        ensures laws { IsPipe self.now }
    {
        self.door.entered()
    }

    /// Whether all that this pipe has to do is done: all own arrivals have left, and at each group every floor is past all
    /// arrivals, no place is unserved, and each unit that the pipe owns in the present round, which is the last one, is in
    /// hand.
    pub fn finished(&self) -> bool
        ensures finished { IsTrue result ↔
            (left_count self.now.door.exit ≡ length self.now.door.exit.home)
            × All IsStationFinished self.now.row.stations }
        ensures laws { IsPipe self.now }
        ensures row { IsRow self.now.row }
    {
        prove!(self.row.len() <= 16);
        self.door.is_empty() && self.row.is_finished()
    }
}

// The last round of so many arrivals.
fn last_round(count: u32, settings: &Settings) -> u32
    ensures round { result ≡ (count - 1) / settings.now.round }
    ensures few { result ≤ count - 1 }
{
    count.saturating_sub(1) / settings.round
}

// The owners before any plan, with room for so many plans.
fn owners(alloc: Global, code: &StagedCode, pipelines: u32, plans: u32) -> Result<Owners, NoMemory>
    requires some { 1 ≤ pipelines }
    requires pipelines { pipelines ≤ 8 }
    requires plans { plans < 262144 }
    ensures { IfOk result (λ o.
        o ≡ unmoved (map (unit_count code.now) code.now.groups) pipelines plans) }
{
    let groups = code.groups();
    let mut units = Vec::with_capacity(alloc, groups as usize)?;
    for g in 0..groups {
        units.push_reserved(code.units(g));
    }
    Owners::start(alloc, &units, pipelines, plans)
}
