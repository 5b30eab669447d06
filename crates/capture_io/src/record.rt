//! The file header of a capture, and its records.

ghost use Rattle.std.specs.Prelude.{◌≡◌, ◌<◌, ◌≤◌, ◌+◌, ℕ, List, length, IfOk};
ghost use Rattle.capture_io.specs.ClassicCapture.{Record};
ghost use Rattle.capture_io.specs.declared.encoding.Encoding.{Encoding};
ghost use Rattle.capture_io.specs.Reading as spec;

use crate::encoding::{Encoding, Order, Resolution};
use crate::fault::CaptureFault;
use crate::limits::{FILE_HEADER_LEN, MAX_CAPTURE, MAX_FRAME, RECORD_HEADER_LEN};
use byteorder::{BigEndian, ByteOrder};

const ETHERNET: u32 = 1;

/// A record's timestamp in microseconds, and the original length of its frame.
#[derive(Clone, Copy)]
pub struct Stamp {
    pub timestamp: u64,
    pub original: u32,
}

/// How the file is written, and the bytes after its header.
#[tactic(auto, unfolding(crate::specs::Reading::after_file_header))]
pub fn after_file_header(bytes: &[u8]) -> Result<(Encoding, &[u8]), CaptureFault>
    ensures rest { spec.Gives {Y = Encoding × List ℕ}
        (λ x. (x.0, x.1.now)) result
        (spec.after_file_header bytes.now) }
    ensures limit { IfOk result (λ x. FILE_HEADER_LEN + length x.1.now ≤ MAX_CAPTURE) }
{
    if bytes.len() > MAX_CAPTURE {
        return Err(CaptureFault::TooLong(bytes.len() as u64));
    }
    if bytes.len() < FILE_HEADER_LEN {
        return Err(CaptureFault::ShortHeader(bytes.len() as u32));
    }
    let (head, rest) = bytes.split_at(FILE_HEADER_LEN);
    let encoding = file_header_of(head)?;
    Ok((encoding, rest))
}

// How a file with this header is written.
#[tactic(auto, unfolding(crate::specs::Reading::file_header_of))]
fn file_header_of(head: &[u8]) -> Result<Encoding, CaptureFault>
    requires { length head.now ≡ FILE_HEADER_LEN }
    ensures { spec.Gives (λ e. e) result (spec.file_header_of head.now) }
{
    let encoding = encoding_of(BigEndian::read_u32(head))?;
    let order = encoding.order;
    let major = order.read_u16(&head[4..]);
    let minor = order.read_u16(&head[6..]);
    if major != 2 || minor != 4 {
        return Err(CaptureFault::Version(major, minor));
    }
    let link = order.read_u32(&head[20..]);
    if link % 65536 != ETHERNET {
        return Err(CaptureFault::LinkType(link));
    }
    Ok(encoding)
}

// How a file is written that begins with this word, most significant byte first.
fn encoding_of(word: u32) -> Result<Encoding, CaptureFault>
    ensures { spec.Gives (λ e. e) result (spec.encoding_of word) }
{
    let (order, resolution) = match word {
        0xa1b2_c3d4 => (Order::Big, Resolution::Micro),
        0xa1b2_3c4d => (Order::Big, Resolution::Nano),
        0xd4c3_b2a1 => (Order::Little, Resolution::Micro),
        0x4d3c_b2a1 => (Order::Little, Resolution::Nano),
        0x0a0d_0d0a => return Err(CaptureFault::PcapNg),
        _ => return Err(CaptureFault::BadMagic(word)),
    };
    Ok(Encoding { order, resolution })
}

/// The record at the front, which begins at this byte of the file: its stamp, its frame, and the bytes
/// after it.
#[tactic(auto, unfolding(crate::specs::Reading::record_at))]
pub fn record_at(
    encoding: Encoding,
    at: u32,
    bytes: &[u8],
) -> Result<(Stamp, &[u8], &[u8]), CaptureFault>
    ensures parts { spec.Gives {Y = Record × List ℕ}
        (λ x.
        (record { timestamp = x.0.timestamp; original = x.0.original; frame = x.1.now }, x.2.now))
        result
        (spec.record_at encoding at bytes.now) }
    ensures limit { IfOk result (λ x. length x.1.now ≤ MAX_FRAME) }
    ensures sum { IfOk result (λ x.
        RECORD_HEADER_LEN + length x.1.now + length x.2.now ≡ length bytes.now) }
{
    if bytes.len() < RECORD_HEADER_LEN {
        return Err(CaptureFault::Truncated(at));
    }
    let (head, body) = bytes.split_at(RECORD_HEADER_LEN);
    let captured = encoding.order.read_u32(&head[8..]);
    if captured > MAX_FRAME {
        return Err(CaptureFault::LongRecord(at, captured));
    }
    if captured as usize > body.len() {
        return Err(CaptureFault::Truncated(at));
    }
    let stamp = Stamp {
        timestamp: timestamp_in(encoding, head),
        original: encoding.order.read_u32(&head[12..]),
    };
    let (frame, rest) = body.split_at(captured as usize);
    Ok((stamp, frame, rest))
}

/// The timestamp of the record at the front, or 0 where no record header is.
pub fn first_timestamp(encoding: Encoding, bytes: &[u8]) -> u64
    ensures { result ≡ spec.first_timestamp encoding bytes.now }
{
    if bytes.len() < RECORD_HEADER_LEN {
        return 0;
    }
    timestamp_in(encoding, &bytes[..RECORD_HEADER_LEN])
}

// The timestamp in a record header.
fn timestamp_in(encoding: Encoding, head: &[u8]) -> u64
    requires { length head.now ≡ RECORD_HEADER_LEN }
    ensures { result ≡ spec.timestamp_in encoding head.now }
{
    let seconds = encoding.order.read_u32(head);
    let fraction = encoding.order.read_u32(&head[4..]);
    encoding.resolution.timestamp(seconds, fraction)
}
