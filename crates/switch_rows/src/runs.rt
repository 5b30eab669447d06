//! Captures that only the top call shows whole: odd frames, and the four ways in which a capture begins.
use crate::fixture::{COUNT, FILE_HEADER, FRAME, assert_ended, push_record, run};
use std::alloc::{AllocError, Global};
use std::test::Fail;

// A UDP frame behind these tags, with these flags and fragment offset, from port 10 to port 20.
fn frame_of(alloc: Global, tags: &[u8], fragment: u16) -> Result<Vec<u8>, AllocError> {
    let mut frame = Vec::from_slice(alloc, &FRAME[..12])?;
    frame.extend_from_slice(tags)?;
    frame.extend_from_slice(&FRAME[12..20])?;
    frame.extend_from_slice(&fragment.to_be_bytes())?;
    frame.extend_from_slice(&FRAME[22..])?;
    Ok(frame)
}

// A number in four bytes, in a file's order.
fn word_in(is_big: bool, number: u32) -> [u8; 4] {
    if is_big {
        number.to_be_bytes()
    } else {
        number.to_le_bytes()
    }
}

// A capture that begins with this magic, with its numbers in this order, of one packet at second 1.
fn capture_in(alloc: Global, is_big: bool, magic: u32) -> Result<Vec<u8>, AllocError> {
    let version = if is_big { [0, 2, 0, 4] } else { [2, 0, 4, 0] };
    let mut capture = Vec::from_slice(alloc, &word_in(is_big, magic))?;
    capture.extend_from_slice(&version)?;
    capture.extend_from_slice(&[0; 12])?;
    for number in [1, 1, 0, 42, 42] {
        capture.extend_from_slice(&word_in(is_big, number))?;
    }
    capture.extend_from_slice(&FRAME)?;
    Ok(capture)
}

// A capture of one packet, with its numbers in either order and fractions of either unit.
#[test]
fn four_beginnings(rt: HostRuntime) -> Result<(), Fail> {
    let alloc = rt.alloc();
    for (is_big, magic) in [
        (false, 0xa1b2_c3d4),
        (false, 0xa1b2_3c4d),
        (true, 0xa1b2_c3d4),
        (true, 0xa1b2_3c4d),
    ] {
        let capture = capture_in(alloc, is_big, magic)?;
        assert_eq!(rt; capture.len(), 82);
        let ended = run(&rt, alloc, COUNT.as_bytes(), &capture)?;
        let at = format!(in alloc; "{magic} {is_big}")?;
        assert_ended(&rt, &ended, 0, "pkt 0 sport=10 n=1\nreg c=1\ndone 1\n", &at);
    }
    Ok(())
}

// Other bytes stand from a place on.
fn put(bytes: &mut [u8], place: usize, new: &[u8]) {
    for (old, new) in bytes.iter_mut().skip(place).zip(new) {
        *old = *new;
    }
}

// An ARP frame; a frame behind two tags, from port 5 to port 6; a later fragment; and a frame of 60 bytes, of which
// 20 are captured. The type of service is 16 in all IPv4 frames.
#[test]
fn odd_frames(rt: HostRuntime) -> Result<(), Fail> {
    let alloc = rt.alloc();
    let program =
        "struct P { int sport; int dport; int proto; int ttl; int tos; int len; }; void f(struct P p) { }";
    let mut arp = FRAME;
    put(&mut arp, 12, &[8, 6]);
    let mut tagged = frame_of(alloc, &[0x88, 0xa8, 0, 1, 0x81, 0, 0, 2], 0)?;
    put(&mut tagged, 23, &[16]);
    put(&mut tagged, 42, &[0, 5, 0, 6]);
    let mut fragment = frame_of(alloc, &[], 185)?;
    put(&mut fragment, 15, &[16]);
    let mut capture = Vec::from_slice(alloc, &FILE_HEADER)?;
    push_record(&mut capture, &arp)?;
    push_record(&mut capture, &tagged)?;
    push_record(&mut capture, &fragment)?;
    capture.extend_from_slice(&[1, 0, 0, 0, 0, 0, 0, 0, 20, 0, 0, 0, 60, 0, 0, 0])?;
    capture.extend_from_slice(&FRAME[..14])?;
    capture.extend_from_slice(&[0x45, 16, 0, 46, 0, 0])?;
    let want = "pkt 0 sport=0 dport=0 proto=0 ttl=0 tos=0 len=42
pkt 1 sport=5 dport=6 proto=17 ttl=64 tos=16 len=50
pkt 2 sport=0 dport=0 proto=17 ttl=64 tos=16 len=42
pkt 3 sport=0 dport=0 proto=0 ttl=0 tos=16 len=60
done 4
";
    let ended = run(&rt, alloc, program.as_bytes(), &capture)?;
    assert_ended(&rt, &ended, 0, want, "odd frames");
    Ok(())
}
