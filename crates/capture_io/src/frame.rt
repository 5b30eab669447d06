//! The IPv4 header of a frame, and the ports behind it.

ghost use Rattle.std.specs.Prelude.{◌≡◌, ◌≤◌, drop};
ghost use Rattle.capture_io.specs.Header as header;

use byteorder::{BigEndian, ByteOrder};

/// How many bytes the two addresses of a frame have.
const ADDRESSES_LEN: usize = 12;

/// How many bytes a tag has.
const TAG_LEN: usize = 4;

const TAG: u16 = 0x8100;

const SERVICE_TAG: u16 = 0x88a8;

const IPV4: u16 = 0x0800;

const TCP: u8 = 6;

const UDP: u8 = 17;

/// The captured bytes from the IPv4 header on: none where the frame has no such header.
pub fn ipv4(frame: &[u8]) -> &[u8]
    ensures { result.now ≡ header.ipv4 frame.now }
{
    let typed = behind_tags(behind_addresses(frame));
    if number16_at(typed, 0) == IPV4 {
        &typed[2..]
    } else {
        &[]
    }
}

// The frame behind the two addresses that begin it.
fn behind_addresses(frame: &[u8]) -> &[u8]
    ensures { result.now ≡ drop 12 frame.now }
{
    if frame.len() < ADDRESSES_LEN {
        &[]
    } else {
        &frame[ADDRESSES_LEN..]
    }
}

// The bytes from the EtherType on, behind the tags.
fn behind_tags(typed: &[u8]) -> &[u8]
    ensures { result.now ≡ header.behind_tags typed.now }
{
    let mut rest = typed;
    while rest.len() >= TAG_LEN && is_tag(number16_at(rest, 0)) {
        rest = &rest[TAG_LEN..];
    }
    rest
}

fn is_tag(ether_type: u16) -> bool
    ensures { result ≡ header.is_tag ether_type }
{
    ether_type == TAG || ether_type == SERVICE_TAG
}

/// The port that stands so many bytes behind the IPv4 header that begins the packet; 0 where there is
/// none.
pub fn port(packet: &[u8], past: usize) -> u16
    requires { past ≤ 2 }
    ensures { result ≡ header.port past packet.now }
{
    if has_ports(packet) {
        number16_at(packet, header_len(packet) + past)
    } else {
        0
    }
}

// Whether ports follow the IPv4 header that begins the packet.
fn has_ports(packet: &[u8]) -> bool
    ensures { result ≡ header.has_ports packet.now }
{
    let protocol = byte_at(packet, 9);
    let offset = number16_at(packet, 6) % 8192;
    (protocol == TCP || protocol == UDP) && (offset == 0 && header_len(packet) >= 20)
}

// The length in bytes that an IPv4 header gives itself.
fn header_len(packet: &[u8]) -> usize
    ensures value { result ≡ header.header_len packet.now }
    ensures limit { result ≤ 60 }
{
    4 * usize::from(byte_at(packet, 0) % 16)
}

/// The byte at a place; 0 where it isn't captured.
pub fn byte_at(bytes: &[u8], at: usize) -> u8
    ensures { result ≡ header.number_at 1 at bytes.now }
{
    if at < bytes.len() { bytes[at] } else { 0 }
}

fn number16_at(bytes: &[u8], at: usize) -> u16
    ensures { result ≡ header.number_at 2 at bytes.now }
{
    if at < bytes.len() && bytes.len() - at >= 2 {
        BigEndian::read_u16(&bytes[at..])
    } else {
        0
    }
}

/// The four bytes from a place on as a number, most significant first; 0 where one isn't captured.
pub fn number32_at(bytes: &[u8], at: usize) -> u32
    ensures { result ≡ header.number_at 4 at bytes.now }
{
    if at < bytes.len() && bytes.len() - at >= 4 {
        BigEndian::read_u32(&bytes[at..])
    } else {
        0
    }
}
