//! Where a packet stands.
ghost use Rattle.std.specs.Prelude.{◌≡◌, ◌%◌, ◌<◌, ◌≤◌, length, None};
ghost use Rattle.run_laws.specs.Run.{round_of};
ghost use Rattle.packet_lines.specs.Lined.{lined_packet, home_count};
ghost use Rattle.packet_steps.specs.Packet.{IsPacket};
ghost use Rattle.packet_steps.specs.Heading.{AreRunOwners};
ghost use Rattle.pipe_worker.specs.Pipe.{line_for, IsStanding};

use packet_lines::PacketLines;
use packet_steps::{Heading, RunData};
use pipe_parts::Packet;
use shard_rounds::Owners;

// Puts a packet into the line of its heading, or into none where it is served here.
pub(crate) fn stand(
    run: &RunData<'_>,
    pipe: u32,
    owners: &Owners,
    packets: &mut PacketLines,
    packet: Packet,
)
    requires packet { IsPacket run.now packet }
    requires owners { AreRunOwners run.now owners.now }
    requires known { round_of run.now packet.t ≤ length owners.now.plans }
    requires pipe { pipe < run.now.settings.pipelines }
    requires pipes { packets.old.pipes ≡ run.now.settings.pipelines }
    requires arrival { packet.t < length packets.old.packets }
    requires absent { lined_packet packets.old packet.t ≡ None }
    requires room { home_count packets.old (packet.t % packets.old.pipes) < packets.old.window }
    ensures { IsStanding run.now pipe packets.old packets.new packet }
{
    let line = line_for(pipe, run.heading(pipe, &packet, owners));
    packets.put(packet, line);
}

// The line of a heading, if it has one.
fn line_for(pipe: u32, heading: Heading) -> Option<u32>
    ensures { result ≡ line_for pipe heading }
{
    match heading {
        Heading::Serve => None,
        Heading::Skip | Heading::TakeHome => Some(pipe),
        Heading::Pass(to) | Heading::GoHome(to) => Some(to),
    }
}
