//! A capture of UDP frames.

use crate::row::{Frame, frame_of};
use crate::trouble::Trouble;
use std::alloc::{AllocError, Global};

/// The bytes of a capture with a UDP frame for each packet of a row.
pub fn capture_of(alloc: Global, packets: &str) -> Result<Vec<u8>, Trouble> {
    let mut bytes = Vec::new(alloc);
    put(&mut bytes, &FILE_HEADER)?;
    if !packets.is_empty() {
        for word in packets.split(' ') {
            put_word(&mut bytes, word)?;
        }
    }
    Ok(bytes)
}

// Appends the record of the packet that a word says.
fn put_word(bytes: &mut Vec<u8>, word: &str) -> Result<(), Trouble> {
    match frame_of(word) {
        Some(frame) => Ok(put_frame(bytes, &frame)?),
        None => Err(Trouble::Row),
    }
}

// The beginning of a capture of Ethernet frames, with the least byte first.
const FILE_HEADER: [u8; 24] = [
    0xd4, 0xc3, 0xb2, 0xa1, 2, 0, 4, 0, 0, 0, 0, 0, 0, 0, 0, 0, 0, 0, 4, 0, 1, 0, 0, 0,
];

// The end of a record's header: 42 bytes were captured of 42.
const LENGTHS: [u8; 8] = [42, 0, 0, 0, 42, 0, 0, 0];

// An Ethernet header, and the IPv4 header of a UDP datagram without data.
const HEADERS: [u8; 34] = [
    0, 0, 0, 0, 0, 0, 0, 0, 0, 0, 0, 0, 8, 0, 0x45, 0, 0, 28, 0, 0, 0, 0, 64, 17, 0, 0, 0, 0, 0, 0,
    0, 0, 0, 0,
];

// Appends a record of a frame, in the first second.
fn put_frame(bytes: &mut Vec<u8>, frame: &Frame) -> Result<(), AllocError> {
    put(bytes, &1u32.to_le_bytes())?;
    put(bytes, &frame.micros.to_le_bytes())?;
    put(bytes, &LENGTHS)?;
    put(bytes, &HEADERS)?;
    put(bytes, &frame.sport.to_be_bytes())?;
    put(bytes, &frame.dport.to_be_bytes())?;
    put(bytes, &[0, 8, 0, 0])
}

fn put(bytes: &mut Vec<u8>, piece: &[u8]) -> Result<(), AllocError> {
    bytes.extend_from_slice(piece)
}
