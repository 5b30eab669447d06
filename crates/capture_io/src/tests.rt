use super::*;
use mp5_words::{FieldNames, Name};
use std::alloc::{AllocError, Global};
use std::process::Abort;
use std::test::Fail;

// A file header, numbers least significant byte first, timestamps in microseconds.
const LITTLE: [u8; 24] = [
    0xd4, 0xc3, 0xb2, 0xa1, 2, 0, 4, 0, 0, 0, 0, 0, 0, 0, 0, 0, 0, 0, 4, 0, 1, 0, 0, 0,
];

// The same in nanoseconds.
const LITTLE_NANO: [u8; 24] = [
    0x4d, 0x3c, 0xb2, 0xa1, 2, 0, 4, 0, 0, 0, 0, 0, 0, 0, 0, 0, 0, 0, 4, 0, 1, 0, 0, 0,
];

// The same two, numbers most significant byte first.
const BIG: [u8; 24] = [
    0xa1, 0xb2, 0xc3, 0xd4, 0, 2, 0, 4, 0, 0, 0, 0, 0, 0, 0, 0, 0, 4, 0, 0, 0, 0, 0, 1,
];

const BIG_NANO: [u8; 24] = [
    0xa1, 0xb2, 0x3c, 0x4d, 0, 2, 0, 4, 0, 0, 0, 0, 0, 0, 0, 0, 0, 4, 0, 0, 0, 0, 0, 1,
];

// A UDP packet from port 10 to port 20, type of service 16.
const FRAME: [u8; 42] = [
    2, 0, 0, 0, 0, 2, 2, 0, 0, 0, 0, 1, 8, 0, // Ethernet
    0x45, 16, 0, 28, 0, 0, 0, 0, 64, 17, 0, 0, 10, 0, 0, 1, 10, 0, 0, 2, // IPv4
    0, 10, 0, 20, 0, 8, 0, 0, // UDP
];

// The header of a record of second 1 with 42 captured bytes of 42.
const RECORD: [u8; 16] = [1, 0, 0, 0, 0, 0, 0, 0, 42, 0, 0, 0, 42, 0, 0, 0];

const ALL: [&[u8]; 10] = [
    b"sport", b"dport", b"saddr", b"daddr", b"proto", b"ttl", b"tos", b"len", b"arrival", b"other",
];

fn names_of(alloc: Global, texts: &[&[u8]]) -> Result<FieldNames, Fail> {
    let mut names = Vec::new(alloc);
    for text in texts {
        names.push(Name::new(Vec::from_slice(alloc, text)?))?;
    }
    if names.len() > 32 {
        return Err(Fail::from("there are too many names"));
    }
    Ok(FieldNames::new(names))
}

fn joined(alloc: Global, parts: &[&[u8]]) -> Result<Vec<u8>, AllocError> {
    let mut bytes = Vec::new(alloc);
    for part in parts {
        bytes.extend_from_slice(part)?;
    }
    Ok(bytes)
}

// The fields of each packet are these.
fn assert_reads(
    rt: &impl Abort,
    alloc: Global,
    bytes: &[u8],
    names: &FieldNames,
    packets: &[&[i32]],
) -> Result<(), Fail> {
    let capture = read_capture(alloc, bytes, names)?;
    assert_eq!(rt; capture.count() as usize, packets.len());
    for t in 0..capture.count() {
        assert_eq!(rt; capture.header(t), packets[t as usize], "packet {t}");
    }
    Ok(())
}

// All fields of the one packet, in each of the four encodings.
#[test]
fn reads_each_encoding(rt: HostRuntime) -> Result<(), Fail> {
    let alloc = rt.alloc();
    let names = names_of(alloc, &ALL)?;
    let fields = [10, 20, 167_772_161, 167_772_162, 17, 64, 16, 42, 0, 0];
    let big_record = [0, 0, 0, 1, 0, 0, 0, 0, 0, 0, 0, 42, 0, 0, 0, 42];
    for (file, record) in [
        (LITTLE, RECORD),
        (LITTLE_NANO, RECORD),
        (BIG, big_record),
        (BIG_NANO, big_record),
    ] {
        assert_reads(&rt, alloc, &file, &names, &[])?;
        let one = joined(alloc, &[&file, &record, &FRAME])?;
        assert_reads(&rt, alloc, &one, &names, &[&fields])?;
        let two = joined(alloc, &[&file, &record, &FRAME, &record, &FRAME])?;
        assert_reads(&rt, alloc, &two, &names, &[&fields, &fields])?;
    }
    let names = names_of(alloc, &[b"sPort", b"dport", b"ttl64", b"dport"])?;
    let one = joined(alloc, &[&LITTLE, &RECORD, &FRAME])?;
    assert_reads(&rt, alloc, &one, &names, &[&[0, 20, 0, 20]])?;
    assert_reads(&rt, alloc, &one, &names_of(alloc, &[])?, &[&[]])
}

// Appends a record of second 1 whose frame is the front of the packet's, other bytes, and a part of the
// packet's.
fn push_frame(
    bytes: &mut Vec<u8>,
    alloc: Global,
    original: u32,
    front: usize,
    middle: &[u8],
    from: usize,
    to: usize,
) -> Result<(), AllocError> {
    let front = FRAME.get(..front).unwrap_or(&[]);
    let back = FRAME.get(from..to).unwrap_or(&[]);
    let frame = joined(alloc, &[front, middle, back])?;
    bytes.extend_from_slice(&RECORD[..8])?;
    bytes.extend_from_slice(&u32::try_from(frame.len()).unwrap_or(0).to_le_bytes())?;
    bytes.extend_from_slice(&original.to_le_bytes())?;
    bytes.extend_from_slice(&frame)
}

// No IPv4; tags of both kinds; a later fragment; a header that is cut.
#[test]
fn reads_four_frames(rt: HostRuntime) -> Result<(), Fail> {
    let alloc = rt.alloc();
    let names = names_of(
        alloc,
        &[b"sport", b"dport", b"proto", b"ttl", b"tos", b"len"],
    )?;
    let tagged = [
        0x88, 0xa8, 0, 7, 0x81, 0, 0, 9, 8, 0, // tags and type
        0x45, 16, 0, 28, 0, 0, 0, 0, 64, 17, 0, 0, 10, 0, 0, 1, 10, 0, 0, 2, // IPv4
        0, 5, 0, 6, 0, 8, 0, 0, // UDP
    ];
    let mut bytes = Vec::from_slice(alloc, &LITTLE)?;
    push_frame(&mut bytes, alloc, 42, 12, &[8, 6], 14, 42)?;
    push_frame(&mut bytes, alloc, 50, 12, &tagged, 42, 42)?;
    push_frame(&mut bytes, alloc, 42, 20, &[0, 185], 22, 42)?;
    push_frame(&mut bytes, alloc, 60, 20, &[], 20, 20)?;
    let packets: [&[i32]; 4] = [
        &[0, 0, 0, 0, 0, 42],
        &[5, 6, 17, 64, 16, 50],
        &[0, 0, 17, 64, 16, 42],
        &[0, 0, 0, 0, 16, 60],
    ];
    assert_reads(&rt, alloc, &bytes, &names, &packets)
}

// The fields of one frame: source and destination port and address, protocol, time to live, type of
// service, length.
#[test]
fn looks_at_each_part(rt: HostRuntime) -> Result<(), Fail> {
    let alloc = rt.alloc();
    let names = names_of(alloc, &ALL[..8])?;
    let (from, to) = (167_772_161, 167_772_162);
    for (original, front, middle, back, end, fields) in [
        // cut
        (42, 0, [].as_slice(), 0, 0, [0, 0, 0, 0, 0, 0, 0, 42]),
        (42, 13, &[], 0, 0, [0, 0, 0, 0, 0, 0, 0, 42]),
        (42, 14, &[], 0, 0, [0, 0, 0, 0, 0, 0, 0, 42]),
        (42, 16, &[], 0, 0, [0, 0, 0, 0, 0, 0, 16, 42]),
        (42, 23, &[], 0, 0, [0, 0, 0, 0, 0, 64, 16, 42]),
        (42, 29, &[], 0, 0, [0, 0, 0, 0, 17, 64, 16, 42]),
        (42, 33, &[], 0, 0, [0, 0, from, 0, 17, 64, 16, 42]),
        (42, 34, &[], 0, 0, [0, 0, from, to, 17, 64, 16, 42]),
        (42, 35, &[], 0, 0, [0, 0, from, to, 17, 64, 16, 42]),
        (42, 37, &[], 0, 0, [10, 0, from, to, 17, 64, 16, 42]),
        (42, 38, &[], 0, 0, [10, 20, from, to, 17, 64, 16, 42]),
        // tags
        (
            46,
            12,
            &[0x81, 0, 0, 5],
            12,
            42,
            [10, 20, from, to, 17, 64, 16, 46],
        ),
        (46, 12, &[0x81, 1, 0, 5], 12, 42, [0, 0, 0, 0, 0, 0, 0, 46]),
        (16, 12, &[0x81, 0, 0, 5], 0, 0, [0, 0, 0, 0, 0, 0, 0, 16]),
        // version, header length, fragment, protocol
        (42, 14, &[0x95], 15, 42, [10, 20, from, to, 17, 64, 16, 42]),
        (42, 14, &[0x44], 15, 42, [0, 0, from, to, 17, 64, 16, 42]),
        (42, 14, &[0x46], 15, 42, [8, 0, from, to, 17, 64, 16, 42]),
        (42, 14, &[0x4f], 15, 42, [0, 0, from, to, 17, 64, 16, 42]),
        (42, 20, &[0x20], 21, 42, [10, 20, from, to, 17, 64, 16, 42]),
        (42, 21, &[1], 22, 42, [0, 0, from, to, 17, 64, 16, 42]),
        (42, 23, &[6], 24, 42, [10, 20, from, to, 6, 64, 16, 42]),
        (42, 23, &[1], 24, 42, [0, 0, from, to, 1, 64, 16, 42]),
        // words
        (
            42,
            26,
            &[255, 255, 255, 254, 128, 0, 0, 1],
            34,
            42,
            [10, 20, -2, -2_147_483_647, 17, 64, 16, 42],
        ),
        (
            42,
            34,
            &[255, 254, 255, 255],
            38,
            42,
            [65534, 65535, from, to, 17, 64, 16, 42],
        ),
        (0, 42, &[], 0, 0, [10, 20, from, to, 17, 64, 16, 0]),
        (
            2_147_483_647,
            0,
            &[],
            0,
            0,
            [0, 0, 0, 0, 0, 0, 0, 2_147_483_647],
        ),
        (
            2_147_483_648,
            0,
            &[],
            0,
            0,
            [0, 0, 0, 0, 0, 0, 0, -2_147_483_648],
        ),
        (4_294_967_295, 0, &[], 0, 0, [0, 0, 0, 0, 0, 0, 0, -1]),
    ] {
        let mut bytes = Vec::from_slice(alloc, &LITTLE)?;
        push_frame(&mut bytes, alloc, original, front, middle, back, end)?;
        assert_reads(&rt, alloc, &bytes, &names, &[fields.as_slice()])?;
    }
    Ok(())
}

// When a second record came, by the seconds and fractions of the two.
#[test]
fn counts_from_the_first_record(rt: HostRuntime) -> Result<(), Fail> {
    let alloc = rt.alloc();
    let names = names_of(alloc, &[b"arrival"])?;
    let most = 4_294_967_295_u32;
    for (file, first, second, arrival) in [
        (LITTLE, (1_u32, 0_u32), (1, 7), 7),
        (LITTLE, (1, 999_999), (2, 0), 1),
        (LITTLE, (1, 5), (1, 0), 2_147_483_643),
        (LITTLE, (0, 0), (2147, 483_647), 2_147_483_647),
        (LITTLE, (0, 0), (2147, 483_648), 0),
        (LITTLE, (0, 0), (0, most), 2_147_483_647),
        (LITTLE, (0, 0), (1, most), 999_999),
        (LITTLE, (0, most), (4294, 967_295), 0),
        (LITTLE, (most, 0), (0, 0), 1_000_000),
        (LITTLE, (0, 0), (most, most), 2_146_483_647),
        (LITTLE_NANO, (1, 0), (1, 7), 0),
        (LITTLE_NANO, (1, 999), (1, 1000), 1),
        (LITTLE_NANO, (1, 1999), (1, 2000), 1),
        (LITTLE_NANO, (1, 5000), (1, 4999), 2_147_483_647),
        (LITTLE_NANO, (0, 0), (0, most), 4_294_967),
    ] {
        let none = [0_u8; 8];
        let bytes = joined(
            alloc,
            &[
                &file,
                &first.0.to_le_bytes(),
                &first.1.to_le_bytes(),
                &none,
                &second.0.to_le_bytes(),
                &second.1.to_le_bytes(),
                &none,
            ],
        )?;
        assert_reads(&rt, alloc, &bytes, &names, &[&[0], &[arrival]])?;
    }
    Ok(())
}

fn assert_refused(
    rt: &impl Abort,
    alloc: Global,
    bytes: &[u8],
    fault: CaptureFault,
) -> Result<(), Fail> {
    let names = names_of(alloc, &ALL)?;
    assert_eq!(rt; read_capture(alloc, bytes, &names).err(), Some(fault));
    Ok(())
}

// The bytes, with other bytes at a place.
fn patched(alloc: Global, bytes: &[u8], at: usize, other: &[u8]) -> Result<Vec<u8>, AllocError> {
    let front = bytes.get(..at).unwrap_or(&[]);
    let back = bytes.get(front.len() + other.len()..).unwrap_or(&[]);
    joined(alloc, &[front, other, back])
}

// The capture of one packet, cut and with other bytes at a place.
#[test]
fn gives_the_first_refusal(rt: HostRuntime) -> Result<(), Fail> {
    let alloc = rt.alloc();
    let whole = joined(alloc, &[&LITTLE, &RECORD, &FRAME])?;
    for (end, at, other, fault) in [
        (0, 0, [].as_slice(), CaptureFault::ShortHeader(0)),
        (20, 0, &[], CaptureFault::ShortHeader(20)),
        (23, 0, &[10, 13, 13, 10], CaptureFault::ShortHeader(23)),
        (28, 0, &[10, 13, 13, 10], CaptureFault::PcapNg),
        (
            24,
            0,
            &[0x1f, 0x8b, 8, 0],
            CaptureFault::BadMagic(0x1f8b_0800),
        ),
        (
            82,
            0,
            &[0xd4, 0xc3, 0xb2, 0xa0],
            CaptureFault::BadMagic(0xd4c3_b2a0),
        ),
        (
            82,
            0,
            &[0xa1, 0xb2, 0xc3, 0xd4],
            CaptureFault::Version(512, 1024),
        ),
        (82, 4, &[3], CaptureFault::Version(3, 4)),
        (82, 6, &[3], CaptureFault::Version(2, 3)),
        (82, 4, &[1, 0, 9], CaptureFault::Version(1, 9)),
        (24, 20, &[101], CaptureFault::LinkType(101)),
        (82, 21, &[1], CaptureFault::LinkType(257)),
        (82, 20, &[0, 0, 1], CaptureFault::LinkType(65536)),
        (25, 0, &[], CaptureFault::Truncated(24)),
        (30, 0, &[], CaptureFault::Truncated(24)),
        (39, 0, &[], CaptureFault::Truncated(24)),
        (40, 0, &[], CaptureFault::Truncated(24)),
        (81, 0, &[], CaptureFault::Truncated(24)),
        (82, 32, &[43], CaptureFault::Truncated(24)),
        (82, 32, &[41], CaptureFault::Truncated(81)),
        (82, 32, &[0, 0, 4], CaptureFault::Truncated(24)),
        (82, 32, &[1, 0, 4], CaptureFault::LongRecord(24, 262_145)),
        (
            40,
            32,
            &[255, 255, 255, 255],
            CaptureFault::LongRecord(24, 4_294_967_295),
        ),
        (39, 32, &[255, 255, 255, 255], CaptureFault::Truncated(24)),
    ] {
        let bytes = patched(alloc, whole.get(..end).unwrap_or(&[]), at, other)?;
        assert_refused(&rt, alloc, &bytes, fault)?;
    }
    let next = joined(alloc, &[&whole, &RECORD])?;
    assert_refused(&rt, alloc, &next, CaptureFault::Truncated(82))?;
    let long = joined(alloc, &[&whole, &[255; 16]])?;
    assert_refused(
        &rt,
        alloc,
        &long,
        CaptureFault::LongRecord(82, 4_294_967_295),
    )
}

fn zeros(alloc: Global, count: usize) -> Result<Vec<u8>, AllocError> {
    vec![in alloc; 0; count]
}

// Zeros behind a file header: a record header of zeros is a record of no bytes.
#[test]
fn keeps_to_the_limits(rt: HostRuntime) -> Result<(), Fail> {
    let alloc = rt.alloc();
    let names = names_of(alloc, &[b"len"])?;
    let longest = zeros(alloc, 134_217_728)?;
    assert_refused(&rt, alloc, &longest, CaptureFault::BadMagic(0))?;
    let longer = joined(alloc, &[&longest, &[0]])?;
    assert_refused(&rt, alloc, &longer, CaptureFault::TooLong(134_217_729))?;
    let records = zeros(alloc, 262_144 * 16)?;
    let most = joined(alloc, &[&LITTLE, &records])?;
    assert_eq!(rt; read_capture(alloc, &most, &names)?.count(), 262_144);
    let part = zeros(alloc, 262_143 * 16 + 15)?;
    let cut = joined(alloc, &[&LITTLE, &part])?;
    assert_refused(&rt, alloc, &cut, CaptureFault::Truncated(4_194_312))?;
    let many = joined(alloc, &[&most, &[0]])?;
    assert_refused(&rt, alloc, &many, CaptureFault::TooMany(262_145))?;
    let long = joined(alloc, &[&most, &[255; 16]])?;
    assert_refused(&rt, alloc, &long, CaptureFault::TooMany(262_145))?;
    let record = [0, 0, 0, 0, 0, 0, 0, 0, 0, 0, 4, 0, 7, 0, 0, 0];
    let frame = zeros(alloc, 262_144)?;
    let largest = joined(alloc, &[&LITTLE, &record, &frame])?;
    assert_reads(&rt, alloc, &largest, &names, &[&[7]])
}
