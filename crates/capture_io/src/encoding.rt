//! How the numbers of a capture file are written.

ghost use Rattle.std.specs.Prelude.{◌≡◌, ◌≤◌, length};
ghost use Rattle.capture_io.specs.Encoding as spec;

use byteorder::{BigEndian, ByteOrder, LittleEndian};

/// The order of the bytes in a number.
#[derive(Clone, Copy)]
pub enum Order {
    Little,
    Big,
}

impl Order {
    /// The number in the first two bytes.
    pub fn read_u16(self, bytes: &[u8]) -> u16
        requires { 2 ≤ length bytes.now }
        ensures { result ≡ spec.number_of self 2 bytes.now }
    {
        match self {
            Order::Little => LittleEndian::read_u16(bytes),
            Order::Big => BigEndian::read_u16(bytes),
        }
    }

    /// The number in the first four bytes.
    pub fn read_u32(self, bytes: &[u8]) -> u32
        requires { 4 ≤ length bytes.now }
        ensures { result ≡ spec.number_of self 4 bytes.now }
    {
        match self {
            Order::Little => LittleEndian::read_u32(bytes),
            Order::Big => BigEndian::read_u32(bytes),
        }
    }
}

/// The unit of the fractions of a second.
#[derive(Clone, Copy)]
pub enum Resolution {
    Micro,
    Nano,
}

impl Resolution {
    /// A timestamp in microseconds, rounded down.
    pub fn timestamp(self, seconds: u32, fraction: u32) -> u64
        ensures { result ≡ spec.timestamp self seconds fraction }
    {
        let micros = match self {
            Resolution::Micro => fraction,
            Resolution::Nano => fraction / 1000,
        };
        u64::from(seconds) * 1_000_000 + u64::from(micros)
    }
}

/// How a capture file is written.
#[derive(Clone, Copy)]
pub struct Encoding {
    pub order: Order,
    pub resolution: Resolution,
}
