//! Packets.
use crate::env::Env;

/// The packet of arrival `t`, which stands before group `g`, or behind all groups where `g` is their number.
/// For each group that it has passed, `by` has the pipe that served it, 255 where none did, and `touched` the
/// arrays that it touched there, bit `a` for array `a`. `units` has the arrival's place at each group as a
/// number: 0 without a place, else 1 more than its unit.
#[derive(Drop)]
pub struct Packet {
    pub t: u32,
    pub g: u32,
    pub env: Env,
    pub by: [u8; 16],
    pub touched: [u16; 16],
    pub units: [u32; 16],
}
