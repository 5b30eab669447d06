//! The packets that are at a pipe.
ghost use Rattle.std.specs.Prelude.{◌≡◌, ◌<◌, ◌≤◌, ◌↔◌, length, IfOk, IsTrue, IsSome, Some, None};
ghost use Rattle.std.specs.Option.{option_copied};
ghost use Rattle.pipe_parts.specs.Packets.{no_packets, packet_of, with_packet, how_many, ArePackets};

use crate::packet::Packet;
use mp5_words::NoMemory;
use std::alloc::Global;
use std::marker::Model;

/// The packets that are at a pipe, at most one of each arrival, seen as how many there may be and a list with
/// one packet or none for each arrival. A packet is found in one step.
#[derive(Drop)]
pub struct PacketPool {
    // for each arrival one more than the slot of its packet, 0 where none is here
    places: Vec<u16>,
    slots: Vec<Option<Packet>>,
    // the empty slots
    free: Vec<u16>,
}

impl Model for PacketPool {
    ghost use Rattle.std.specs.Prelude.{length, vec_capacity};
    ghost use Rattle.pipe_parts.specs.Packets.{Packets};
    ghost use Rattle.pipe_parts.specs.Slots.{in_slots, KeepsSlots};

    ghost Value = { Packets };

    ghost view = { λ p. record { room = length p.slots.items; packets = in_slots p.slots.items p.places.items } };

    ghost invariant = { λ p. KeepsSlots p.slots.items p.places.items p.free.items (vec_capacity p.free) };
}

impl PacketPool {
    /// No packet is here. There is room for `room` packets of so many arrivals.
    pub fn new(alloc: Global, arrivals: u32, room: u32) -> Result<PacketPool, NoMemory>
        requires arrivals { arrivals ≤ 262144 }
        requires room { room ≤ 8192 }
        ensures { IfOk result (λ p. p ≡ no_packets arrivals room) }
    {
        let mut slots = Vec::with_capacity(alloc, room as usize)?;
        let mut free = Vec::with_capacity(alloc, room as usize)?;
        for slot in 0..room {
            slots.push_reserved(None);
            free.push_reserved(slot as u16);
        }
        Ok(PacketPool {
            places: vec![in alloc; 0; arrivals as usize]?,
            slots,
            free,
        })
    }

    /// Whether the packet of an arrival is here.
    #[inline]
    pub fn has(&self, t: u32) -> bool
        requires { t < length self.now.packets }
        ensures here { IsTrue result ↔ IsSome (packet_of self.now t) }
        ensures laws { ArePackets self.now }
    {
        self.places[t as usize] != 0
    }

    /// The packet of an arrival. None exactly where it isn't here.
    pub fn get(&self, t: u32) -> Option<&Packet>
        requires { t < length self.now.packets }
        ensures packet { option_copied result ≡ packet_of self.now t }
        ensures laws { ArePackets self.now }
    {
        match self.places[t as usize] {
            0 => None,
            place => self.slots[place as usize - 1].as_ref(),
        }
    }

    /// A packet comes. None of its arrival is here, and fewer packets than there is room for.
    pub fn put(&mut self, packet: Packet)
        requires arrival { packet.t < length self.old.packets }
        requires absent { packet_of self.old packet.t ≡ None }
        requires room { how_many self.old < self.old.room }
        ensures { self.new ≡ with_packet self.old packet.t (Some packet) }
    {
        let Some(slot) = self.free.pop() else {
            unreachable!()
        };
        self.places[packet.t as usize] = slot + 1;
        self.slots[slot as usize] = Some(packet);
    }

    /// Takes the packet of an arrival, which is here.
    pub fn take(&mut self, t: u32) -> Packet
        requires { IsSome (packet_of self.old t) }
        ensures packet { packet_of self.old t ≡ Some result }
        ensures gone { self.new ≡ with_packet self.old t None }
    {
        let slot = self.places[t as usize] - 1;
        self.places[t as usize] = 0;
        self.free.push_reserved(slot);
        match self.slots[slot as usize].take() {
            Some(packet) => packet,
            None => unreachable!(),
        }
    }
}

#[cfg(test)]
mod tests {
    use super::*;
    use crate::env::Env;
    use std::test::Fail;

    fn packet(alloc: Global, t: u32, g: u32) -> Result<Packet, Fail>
        ensures { IfOk result (λ p. p.t ≡ t) }
    {
        Ok(Packet {
            t,
            g,
            env: Env::new(vec![in alloc; 0; 2]?),
            by: [255; 16],
            touched: [0; 16],
            units: [0; 16],
        })
    }

    #[test]
    fn a_packet_comes_and_goes(rt: HostRuntime) -> Result<(), Fail> {
        let mut pool = PacketPool::new(rt.alloc(), 3, 1)?;
        assert_eq!(rt; pool.has(2), false);
        pool.put(packet(rt.alloc(), 2, 1)?);
        assert_eq!(rt; pool.get(2).map(|p| p.g), Some(1));
        assert_eq!(rt; pool.get(0).map(|p| p.g), None);
        let mut moved = pool.take(2);
        assert_eq!(rt; pool.has(2), false);
        moved.g = 4;
        pool.put(moved);
        assert_eq!(rt; pool.get(2).map(|p| p.g), Some(4));
        Ok(())
    }

    #[test]
    fn an_empty_slot_is_used_again(rt: HostRuntime) -> Result<(), Fail> {
        let mut pool = PacketPool::new(rt.alloc(), 3, 2)?;
        pool.put(packet(rt.alloc(), 2, 1)?);
        pool.put(packet(rt.alloc(), 0, 5)?);
        assert_eq!(rt; pool.take(2).g, 1);
        pool.put(packet(rt.alloc(), 1, 6)?);
        assert_eq!(rt; pool.get(0).map(|p| p.g), Some(5));
        assert_eq!(rt; pool.get(1).map(|p| p.g), Some(6));
        Ok(())
    }
}
