//! Packets and lines.
ghost use Rattle.std.specs.Prelude.{◌≡◌, ◌≢◌, [], ◌*◌, ◌%◌, ◌<◌, ◌≤◌, ◌↔◌, length, slice_index, IfOk, IfSome, IfNone, IsTrue, IsSome, Some, None};
ghost use Rattle.std.specs.Option.{option_copied};
ghost use Rattle.pipe_parts.specs.Packets.{packet_of, with_packet, how_many};
ghost use Rattle.pipe_parts.specs.Waiting.{waits_for};
ghost use Rattle.packet_lines.specs.Lined.{no_lines, lined_packet, line_of, first_of, home_count, with_lined, without_first, without_waiting, StandsAt, StandsNowhere, AreLined};
ghost use Rattle.packet_lines.specs.Keeping.{one_more, one_less, stood};

use mp5_words::NoMemory;
use pipe_parts::{Outbox, Packet, PacketPool};
use std::alloc::Global;
use std::marker::Model;

/// The packets that are at a pipe, at most one of each arrival and at most a window of each home, which is
/// the arrival's number modulo the number of pipes. Some stand in lines, one line for each pipe. Seen as the
/// number of pipes, the window, a list with one packet or none for each arrival, and the list of the lines,
/// each with its arrivals in order of coming. Every call but `new` takes a time that doesn't grow with the
/// packets, and no memory.
#[derive(Drop)]
pub struct PacketLines {
    pipes: u32,
    window: u32,
    pool: PacketPool,
    lines: Outbox<u32>,
    // how many packets of each home are here
    homes: Vec<u32>,
}

impl Model for PacketLines {
    ghost use Rattle.packet_lines.specs.Lined.{Lined};
    ghost use Rattle.packet_lines.specs.Keeping.{seen, KeepsLines};

    ghost Value = { Lined };

    ghost view = { λ p. seen p.pipes p.window p.pool p.lines };

    ghost invariant = { λ p. KeepsLines p.pipes p.window p.pool p.lines p.homes.items };
}

impl PacketLines {
    /// No packet is here. There is room for `window` packets of each home, in the pool and in each line.
    pub fn new(
        alloc: Global,
        arrivals: u32,
        pipes: u32,
        window: u32,
    ) -> Result<PacketLines, NoMemory>
        requires arrivals { arrivals ≤ 262144 }
        requires some_pipe { 1 ≤ pipes }
        requires pipes { pipes ≤ 8 }
        requires some_window { 1 ≤ window }
        requires window { window ≤ 1024 }
        ensures { IfOk result (λ p. p ≡ no_lines arrivals pipes window) }
    {
        let room = pipes * window;
        Ok(PacketLines {
            pipes,
            window,
            pool: PacketPool::new(alloc, arrivals, room)?,
            lines: Outbox::new(alloc, pipes, room)?,
            homes: vec![in alloc; 0; pipes as usize]?,
        })
    }

    /// Whether the packet of an arrival is here.
    pub fn has(&self, t: u32) -> bool
        requires { t < length self.now.packets }
        ensures here { IsTrue result ↔ IsSome (lined_packet self.now t) }
        ensures laws { AreLined self.now }
    {
        self.pool.has(t)
    }

    /// The packet of an arrival. None exactly where it isn't here.
    pub fn get(&self, t: u32) -> Option<&Packet>
        requires { t < length self.now.packets }
        ensures packet { option_copied result ≡ lined_packet self.now t }
        ensures laws { AreLined self.now }
    {
        self.pool.get(t)
    }

    /// How many packets are here whose arrivals have this home.
    pub fn of_home(&self, home: u32) -> u32
        requires { home < self.now.pipes }
        ensures count { result ≡ home_count self.now home }
        ensures laws { AreLined self.now }
    {
        self.homes[home as usize]
    }

    /// The arrival that stands first in a line. None exactly where nobody stands there.
    pub fn first(&self, line: u32) -> Option<u32>
        requires { line < self.now.pipes }
        ensures first { IfSome result (StandsAt self.now line 0) }
        ensures none { IfNone result (line_of self.now line ≡ []) }
        ensures laws { AreLined self.now }
    {
        self.lines.first(line).copied()
    }

    /// A packet comes. Its arrival stands behind the others of a line, if one is given, else in none. No
    /// packet of the arrival is here, and fewer of its home than the window.
    pub fn put(&mut self, packet: Packet, line: Option<u32>)
        requires arrival { packet.t < length self.old.packets }
        requires absent { lined_packet self.old packet.t ≡ None }
        requires room { home_count self.old (packet.t % self.old.pipes) < self.old.window }
        requires line { IfSome line (λ line. line < self.old.pipes) }
        ensures { self.new ≡ with_lined self.old packet line }
    {
        let t = packet.t;
        come(&mut self.pool, &mut self.homes, self.pipes, packet);
        stand(&mut self.lines, t, line);
    }

    /// Takes the packet whose arrival stands first in a line, in which somebody stands.
    pub fn take_first(&mut self, line: u32) -> Packet
        requires { 0 < length (line_of self.old line) }
        ensures packet { lined_packet self.old (first_of self.old line) ≡ Some result }
        ensures gone { self.new ≡ without_first self.old line }
    {
        let t = match self.lines.pop(line) {
            Some(t) => t,
            None => unreachable!(),
        };
        leave(&mut self.pool, &mut self.homes, self.pipes, t)
    }

    /// Takes the packet of an arrival, which is here and stands in no line.
    pub fn take_waiting(&mut self, t: u32) -> Packet
        requires here { IsSome (lined_packet self.old t) }
        requires waiting { StandsNowhere self.old t }
        ensures packet { lined_packet self.old t ≡ Some result }
        ensures gone { self.new ≡ without_waiting self.old t }
    {
        leave(&mut self.pool, &mut self.homes, self.pipes, t)
    }
}

// Arrival `t` stands behind the others of a line, if one is given.
fn stand(lines: &mut Outbox<u32>, t: u32, line: Option<u32>)
    requires line { IfSome line (λ line. line < length lines.old.lines) }
    requires room { IfSome line (λ line. length (waits_for lines.old line) < lines.old.room) }
    ensures { lines.new ≡ stood lines.old t line }
{
    if let Some(line) = line {
        lines.push(line, t);
    }
}

// A packet comes and is counted. None of its arrival is here, and the pool has room.
fn come(pool: &mut PacketPool, homes: &mut [u32], pipes: u32, packet: Packet)
    requires arrival { packet.t < length pool.old.packets }
    requires absent { packet_of pool.old packet.t ≡ None }
    requires room { how_many pool.old < pool.old.room }
    requires pipes { 0 < pipes }
    requires homes { length homes.old ≡ pipes }
    requires few { slice_index homes.old (packet.t % pipes) < 1024 }
    ensures here { pool.new ≡ with_packet pool.old packet.t (Some packet) }
    ensures more { homes.new ≡ one_more homes.old (packet.t % pipes) }
{
    homes[(packet.t % pipes) as usize] += 1;
    pool.put(packet);
}

// Takes the packet of arrival `t`, which is here and counted.
fn leave(pool: &mut PacketPool, homes: &mut [u32], pipes: u32, t: u32) -> Packet
    requires here { IsSome (packet_of pool.old t) }
    requires pipes { 0 < pipes }
    requires homes { length homes.old ≡ pipes }
    requires counted { 0 < slice_index homes.old (t % pipes) }
    ensures packet { packet_of pool.old t ≡ Some result }
    ensures gone { pool.new ≡ with_packet pool.old t None }
    ensures less { homes.new ≡ one_less homes.old (t % pipes) }
{
    homes[(t % pipes) as usize] -= 1;
    pool.take(t)
}

#[cfg(test)]
mod tests {
    use super::*;
    use pipe_parts::Env;
    use std::test::Fail;

    fn packet(alloc: Global, t: u32, g: u32) -> Result<Packet, Fail>
        ensures { IfOk result (λ p. p.t ≡ t) }
    {
        Ok(Packet {
            t,
            g,
            env: Env::new(vec![in alloc; 0; 2]?),
            by: [255; 16],
            touched: [0; 16],
            units: [0; 16],
        })
    }

    #[test]
    fn packets_leave_a_line_in_order_of_coming(rt: HostRuntime) -> Result<(), Fail> {
        let mut packets = PacketLines::new(rt.alloc(), 6, 2, 2)?;
        packets.put(packet(rt.alloc(), 3, 13)?, Some(1));
        packets.put(packet(rt.alloc(), 0, 10)?, Some(1));
        packets.put(packet(rt.alloc(), 5, 15)?, Some(0));
        assert_eq!(rt; packets.first(1), Some(3));
        assert_eq!(rt; packets.first(0), Some(5));
        assert_eq!(rt; packets.of_home(1), 2);
        assert_eq!(rt; packets.take_first(1).g, 13);
        assert_eq!(rt; packets.first(1), Some(0));
        assert_eq!(rt; packets.take_first(1).t, 0);
        assert_eq!(rt; packets.first(1), None);
        assert_eq!(rt; packets.of_home(0), 0);
        assert_eq!(rt; packets.of_home(1), 1, "arrival 5 stands in the other line");
        Ok(())
    }

    #[test]
    fn a_packet_that_waits_is_in_no_line(rt: HostRuntime) -> Result<(), Fail> {
        let mut packets = PacketLines::new(rt.alloc(), 4, 2, 1)?;
        packets.put(packet(rt.alloc(), 2, 12)?, None);
        assert_eq!(rt; packets.has(2), true);
        assert_eq!(rt; packets.first(0), None);
        assert_eq!(rt; packets.of_home(0), 1);
        assert_eq!(rt; packets.take_waiting(2).g, 12);
        assert_eq!(rt; packets.has(2), false);
        assert_eq!(rt; packets.of_home(0), 0);
        Ok(())
    }

    #[test]
    fn an_arrival_comes_again_later(rt: HostRuntime) -> Result<(), Fail> {
        let mut packets = PacketLines::new(rt.alloc(), 4, 2, 1)?;
        packets.put(packet(rt.alloc(), 1, 11)?, Some(0));
        packets.put(packet(rt.alloc(), 2, 12)?, Some(0));
        let moved = packets.take_first(0);
        packets.put(moved, Some(0));
        assert_eq!(rt; packets.get(1).map(|p| p.g), Some(11));
        assert_eq!(rt; packets.take_first(0).t, 2, "the other stood before it");
        assert_eq!(rt; packets.take_first(0).t, 1);
        Ok(())
    }
}
