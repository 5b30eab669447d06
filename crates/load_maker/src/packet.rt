//! A made packet, and its fields.

ghost use Rattle.std.specs.Prelude.{◌≡◌, ◌==◌, ◌<◌, ◌≤◌, ◌+◌, ◌%◌, ◌^◌, pos, if◌then◌else◌};
ghost use Rattle.rand_pcg.specs.Lcg.{advance};
ghost use Rattle.rand_pcg.specs.Pcg.{multiplier_64};
ghost use Rattle.load_maker.specs.Made as spec;

use capture_io::Source;
use rand_core::utils::NextWord;
use rand_pcg::Lcg64Xsh32;

/// The four words that are drawn for a packet, in order.
#[derive(Clone, Copy)]
pub(crate) struct Draw {
    pub(crate) sport: u32,
    pub(crate) dport: u32,
    pub(crate) wait: u32,
    pub(crate) len: u32,
}

/// Draws the words of the next packet.
#[tactic(auto, unfolding(crate::specs::Made::word, rand_pcg::specs::Lcg::state_after))]
pub(crate) fn next_words(generator: &mut Lcg64Xsh32) -> Draw
    ensures words { result ≡ spec.draw generator.old }
    ensures moved { generator.new ≡ advance 64 multiplier_64 4 generator.old }
{
    Draw {
        sport: generator.next_word(),
        dport: generator.next_word(),
        wait: generator.next_word(),
        len: generator.next_word(),
    }
}

/// How long after the packet before it packet `t` comes. The first comes at once.
pub(crate) fn wait(t: u32, draw: Draw) -> u32
    ensures value { result ≡ (if t == 0 then 0 else draw.wait % 16) }
    ensures limit { result < 16 }
{
    if t == 0 { 0 } else { draw.wait % 16 }
}

/// The parts of a packet that differ from one to the next.
#[derive(Clone, Copy)]
pub(crate) struct Packet {
    pub(crate) sport: u16,
    pub(crate) dport: u16,
    pub(crate) arrival: u32,
    pub(crate) len: u16,
}

impl Packet {
    /// The packet of these words that comes at this time.
    pub(crate) fn of(draw: Draw, arrival: u32) -> Packet
        ensures { result ≡ spec.packet_of draw arrival }
    {
        Packet {
            sport: 1024 + (draw.sport % 64) as u16,
            dport: 80 + (draw.dport % 4) as u16,
            arrival,
            len: 64 + (draw.len % 1400) as u16,
        }
    }

    /// The value that the packet has in a field that takes it from here.
    pub(crate) fn value(self, source: Source) -> i32
        requires { self.arrival < 2 ^ 31 }
        ensures { result ≡ pos (spec.value self source) }
    {
        match source {
            Source::Arrival => self.arrival as i32,
            Source::OriginalLength => i32::from(self.len),
            Source::TypeOfService | Source::Unfilled => 0,
            Source::TimeToLive => 64,
            Source::Protocol => 17,
            Source::SourceAddress => 167_772_160 + i32::from(self.sport),
            Source::DestinationAddress => 167_772_160 + i32::from(self.dport),
            Source::SourcePort => i32::from(self.sport),
            Source::DestinationPort => i32::from(self.dport),
        }
    }
}
