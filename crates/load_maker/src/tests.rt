use super::*;
use mp5_words::{FieldNames, Name};
use std::alloc::Global;
use std::process::Abort;
use std::test::Fail;

const ALL: [&[u8]; 10] = [
    b"sport", b"dport", b"saddr", b"daddr", b"proto", b"ttl", b"tos", b"len", b"arrival", b"other",
];

fn names_of(alloc: Global, texts: &[&[u8]]) -> Result<FieldNames, Fail> {
    let mut names = Vec::new(alloc);
    for text in texts {
        names.push(Name::new(Vec::from_slice(alloc, text)?))?;
    }
    if names.len() > 32 {
        return Err(Fail::from("there are too many names"));
    }
    Ok(FieldNames::new(names))
}

// The packets of a capture of a seed are these.
fn assert_makes(rt: &impl Abort, alloc: Global, seed: u64, want: &[[i32; 10]]) -> Result<(), Fail> {
    let names = names_of(alloc, &ALL)?;
    if want.len() > 262_144 {
        return Err(Fail::from("there are too many packets"));
    }
    let n = want.len() as u32;
    let Ok(capture) = make_capture(alloc, n, seed, &names) else {
        return Err(Fail::from("there was no memory"));
    };
    assert_eq!(rt; capture.count(), n, "of seed {seed}");
    for t in 0..capture.count() {
        assert_eq!(rt;
            capture.header(t),
            want[t as usize].as_slice(),
            "packet {t} of seed {seed}"
        );
    }
    Ok(())
}

#[test]
fn no_packet_is_made_of_none(rt: HostRuntime) -> Result<(), Fail> {
    assert_makes(&rt, rt.alloc(), 7, &[])?;
    assert_makes(&rt, rt.alloc(), 4294967295, &[])
}

#[test]
fn packets_are_those_of_the_generator(rt: HostRuntime) -> Result<(), Fail> {
    let of_zero = [
        [1043, 83, 167773203, 167772243, 17, 64, 0, 126, 0, 0],
        [1051, 81, 167773211, 167772241, 17, 64, 0, 1450, 6, 0],
        [1031, 81, 167773191, 167772241, 17, 64, 0, 832, 10, 0],
    ];
    assert_makes(&rt, rt.alloc(), 0, &of_zero)?;
    let of_seven = [
        [1027, 80, 167773187, 167772240, 17, 64, 0, 994, 0, 0],
        [1048, 83, 167773208, 167772243, 17, 64, 0, 1277, 14, 0],
        [1079, 83, 167773239, 167772243, 17, 64, 0, 1270, 14, 0],
    ];
    assert_makes(&rt, rt.alloc(), 7, &of_seven)?;
    let of_most = [
        [1034, 82, 167773194, 167772242, 17, 64, 0, 568, 0, 0],
        [1028, 81, 167773188, 167772241, 17, 64, 0, 381, 5, 0],
        [1025, 81, 167773185, 167772241, 17, 64, 0, 1455, 13, 0],
    ];
    assert_makes(&rt, rt.alloc(), 4294967295, &of_most[..1])?;
    assert_makes(&rt, rt.alloc(), 4294967295, &of_most)
}

#[test]
fn the_most_packets_are_made(rt: HostRuntime) -> Result<(), Fail> {
    let names = names_of(rt.alloc(), &ALL[..9])?;
    let Ok(capture) = make_capture(rt.alloc(), 262_144, 1, &names) else {
        return Err(Fail::from("there was no memory"));
    };
    assert_eq!(rt; capture.count(), 262_144);
    let last = [1072, 82, 167773232, 167772242, 17, 64, 0, 1014, 1962573];
    assert_eq!(rt; capture.header(262_143), last.as_slice());
    Ok(())
}
