//! Messages between pipes.

use capture_io::Capture;
use code_forms::{StagedCode, Unit};
use mp5_words::Settings;
use pair_lane::Carried;
use pipe_parts::Env;
use std::snapshot::Snapshot;

/// What a pipe tells another, or itself.
#[derive(Drop)]
pub enum Message {
    /// Arrival `t` entered at its home. `units` has its place at each group as a number: 0 without a place, else
    /// 1 more than the unit.
    Phantom {
        t: u32,
        units: [u32; 16],
    },
    /// The packet of arrival `t` comes to group `g`, where it has its place in a unit of the receiver.
    Packet {
        t: u32,
        g: u32,
        env: Env,
        by: [u8; 16],
        touched: [u16; 16],
    },
    /// Unit `u` of group `g` comes to the receiver, which gets it for round `from`.
    Cell {
        g: u32,
        u: u32,
        from: u32,
        unit: Unit,
    },
    /// The packet of arrival `t` has passed all groups, and comes home.
    Home {
        t: u32,
        env: Env,
        by: [u8; 16],
        touched: [u16; 16],
    },
}

/// What the two ends of a lane agree on: the run, the sender's number and the receiver's.
#[derive(Drop)]
pub struct LaneKey {
    pub code: Snapshot<StagedCode>,
    pub capture: Snapshot<Capture>,
    pub settings: Settings,
    pub from: u32,
    pub to: u32,
}

impl Carried for Message {
    ghost use Rattle.pipe_messages.specs.Messages.{Fits};

    type Key = LaneKey;

    ghost fits = { Fits };
}
