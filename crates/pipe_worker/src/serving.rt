//! Places that are served.
ghost use Rattle.std.specs.Prelude.{◌≡◌, ◌<◌, ◌≤◌, ◌↔◌, ℕ, IfSome, IfNone, IsTrue, IsFalse, length};
ghost use Rattle.place_queue.specs.declared.place.Place.{Place as PlaceHere};
ghost use Rattle.pipe_parts.specs.declared.packet.Packet.{Packet as PacketHere};
ghost use Rattle.group_station.specs.Station.{Given};
ghost use Rattle.packet_lines.specs.Lined.{AreLined};
ghost use Rattle.pipe_stations.specs.Row.{IsRow};
ghost use Rattle.pipe_worker.specs.Pipe.{station};
ghost use Rattle.pipe_worker.specs.Events.{CanServe, IsOneEvent};

use crate::pipe::Pipe;
use crate::standing::stand;
use place_queue::Place;

impl Pipe<'_> {
    // Serves a place that is ready, if there is one.
    pub(crate) fn serve_one(&mut self) -> bool
        ensures did { IsTrue result → IsOneEvent self.old self.new }
        ensures not { IsFalse result → (g : ℕ) (place : PlaceHere) (p : PacketHere)
            → CanServe self.old g place p → ⊥ }
        ensures kept { IsFalse result → self.new ≡ self.old }
    {
        match self.next_service() {
            Some((g, place)) => {
                self.serve(g, place);
                true
            }
            None => false,
        }
    }

    // A group with a place that is ready and whose packet is here, if there is one.
    fn next_service(&self) -> Option<(u32, Place)>
        ensures some { IfSome result (λ r. (p : PacketHere) × CanServe self.now r.0 r.1 p) }
        ensures given { IfSome result (λ r. Given (station self.now r.0) r.1.t r.1.unit) }
        ensures lined { IfSome result (λ _. AreLined self.now.packets) }
        ensures row { IsRow self.now.row }
        ensures none { IfNone result ((g : ℕ) (place : PlaceHere) (p : PacketHere)
            → CanServe self.now g place p → ⊥) }
    {
        for g in 0..self.row.len() {
            if let Some(place) = self.ready_at(g) {
                return Some((g, place));
            }
        }
        None
    }

    // The place of a group that is ready and whose packet is here, if there is one.
    fn ready_at(&self, g: u32) -> Option<Place>
        requires { g < length self.now.row.stations }
        ensures some { IfSome result (λ place. (p : PacketHere) × CanServe self.now g place p) }
        ensures given { IfSome result (λ place. Given (station self.now g) place.t place.unit) }
        ensures lined { IfSome result (λ _. AreLined self.now.packets) }
        ensures none { IfNone result ((place : PlaceHere) (p : PacketHere)
            → CanServe self.now g place p → ⊥) }
    {
        let station = self.row.get(g);
        let place = station.ready()?;
        let present = station.round();
        prove!(place.t / self.run.settings.round == present);
        match self.packets.get(place.t) {
            Some(packet) if packet.g == g => Some(place),
            _ => None,
        }
    }

    // Serves a place.
    fn serve(&mut self, g: u32, place: Place)
        requires ready { (p : PacketHere) × CanServe self.old g place p }
        requires given { Given (station self.old g) place.t place.unit }
        requires lined { AreLined self.old.packets }
        requires row { IsRow self.old.row }
        ensures { IsOneEvent self.old self.new }
    {
        let mut packet = self.packets.take_waiting(place.t);
        self.row.serve(&self.run, g, place, &mut packet);
        stand(
            &self.run,
            self.pipe,
            &self.owners,
            &mut self.packets,
            packet,
        );
    }
}
