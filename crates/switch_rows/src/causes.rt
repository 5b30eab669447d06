//! How calls end: words that aren't taken, and reads and writes that fail.
use crate::fixture::{
    COUNT, COUNTED, FILE_HEADER, PLANNED, assert_ended, assert_refused, call, file, packets, sink,
    store_of, text_of, words_of,
};
use std::alloc::{AllocError, Global};
use std::sync::Wait;
use std::test::Fail;
use std::thread;
use switch_runner::{
    MemoryStore, OpenGate, ProgramFault, Status, SureSink, SureStore, Threads, switch_top,
};

// A store of `COUNT` as `p` and three packets as `c`.
fn counting(alloc: Global, fails: &[u64]) -> Result<MemoryStore, AllocError> {
    let capture = packets(alloc, &[10, 20, 30])?;
    store_of(alloc, COUNT.as_bytes(), &capture, 64, fails)
}

// The first read of a listed name fails, so that words after which one is read end as a read fault.
#[test]
fn words(rt: HostRuntime) -> Result<(), Fail> {
    let alloc = rt.alloc();
    for (code, lines) in [
        (
            2,
            "|mp5|mp5 one|mp5 one p|mp5 one p c |mp5 one p c d|one p c|mp5 p c|mp5 p one c|mp5 one p c --trace=1",
        ),
        (
            2,
            "mp5 two p c|mp5 One p c|mp5 ONE p c|mp5 on p c|mp5 ones p c|mp5 PLAN p c|mp5  p c|mp5 -one p c|mp5 runs p c|one mp5 p c",
        ),
        (
            2,
            "mp5 one -p c|mp5 one -- c|mp5 one --brief c|mp5 one p -c|mp5 one -p -c|mp5 one p c -- d|mp5 -V|mp5 one --version p c",
        ),
        (
            2,
            "mp5 one p gen:1|mp5 one p gen:|mp5 one p gen:x|mp5 one -p gen:x|mp5 one p -- gen:01:1|mp5 plan p gen:262145:1",
        ),
        (
            5,
            "mp5 one p c|mp5 plan p c|-x one p c| one p c|mp5 one c p|mp5 one p p|mp5 one p q|mp5 one p gen|mp5 one p Gen:1:1|mp5 one p |mp5 one p -|mp5 -- one p c|mp5 one p gen:1:1|mp5 run p c --trace --brief",
        ),
    ] {
        for line in lines.split('|') {
            let mut store = counting(alloc, &[1])?;
            let (out, err) = (sink(alloc, 99, &[])?, sink(alloc, 99, &[])?);
            let ended = call(&rt, alloc, line, &mut store, out, err)?;
            assert_ended(&rt, &ended, code, "", line);
        }
    }
    for line in "mp5 one p c|-x one p c|gen:1 one p c| one p c".split('|') {
        let mut store = counting(alloc, &[])?;
        let (taken, err) = (sink(alloc, 99, &[])?, sink(alloc, 99, &[])?);
        let ended = call(&rt, alloc, line, &mut store, taken, err)?;
        assert_ended(&rt, &ended, 0, COUNTED, line);
    }
    // A program that isn't listed is empty, so no read of a capture follows. The first byte of the capture
    // begins no token. The program as a capture begins with `stru`; a capture that isn't listed is empty.
    let rows: [(&[u64], u8, &str, &str); 4] = [
        (
            &[1],
            3,
            "3 0",
            "mp5 one q c|mp5 one gen:x c|mp5 one q p|mp5 one q q|mp5 one  c|mp5 one p- c|mp5 one _p c|mp5 one P c|mp5 one - c",
        ),
        (&[], 3, "2 0", "mp5 one c c|mp5 one c p"),
        (&[], 4, "4 73747275", "mp5 one p p"),
        (
            &[],
            4,
            "2 0",
            "mp5 one p q|mp5 one p gen|mp5 one p Gen:1:1|mp5 one p xgen:1|mp5 one p |mp5 one p c-",
        ),
    ];
    for (fails, code, refusal, lines) in rows {
        for line in lines.split('|') {
            let mut store = counting(alloc, fails)?;
            let (taken, err) = (sink(alloc, 99, &[])?, sink(alloc, 99, &[])?);
            let ended = call(&rt, alloc, line, &mut store, taken, err)?;
            assert_refused(&rt, alloc, &ended, code, refusal, line)?;
        }
    }
    Ok(())
}

// Help is told on the errors' sink, and nothing is read or written.
#[test]
fn calls_for_help(rt: HostRuntime) -> Result<(), Fail> {
    let alloc = rt.alloc();
    for line in [
        "mp5 --help",
        "mp5 -h",
        "mp5 --help p c",
        "mp5 one p --help",
        "mp5 one p c -h",
        "mp5 fly p c --help",
    ] {
        let mut store = counting(alloc, &[1])?;
        let (out, err) = (sink(alloc, 99, &[])?, sink(alloc, 99, &[])?);
        let ended = call(&rt, alloc, line, &mut store, out, err)?;
        assert_eq!(rt; ended.status.code(), 1, "at {line}");
        assert_eq!(rt; text_of(&ended.out), "", "at {line}");
        assert!(rt; text_of(&ended.err).starts_with("Runs a packet transaction over"));
    }
    Ok(())
}

// There are no other modes, and no numbers out of their range.
#[test]
fn other_modes(rt: HostRuntime) -> Result<(), Fail> {
    let alloc = rt.alloc();
    for line in [
        "mp5 run p",
        "mp5 fly p c",
        "mp5 run p c --pipelines 9",
        "mp5 run p gen:300000:1",
    ] {
        let mut store = counting(alloc, &[1])?;
        let (out, err) = (sink(alloc, 99, &[])?, sink(alloc, 99, &[])?);
        let ended = call(&rt, alloc, line, &mut store, out, err)?;
        assert_ended(&rt, &ended, 2, "", line);
    }
    Ok(())
}

// Each read fails in turn. Both files are read, so at least the first two reads are reached.
#[test]
fn reads_that_fail(rt: HostRuntime) -> Result<(), Fail> {
    let alloc = rt.alloc();
    let mut reached = 0;
    for failing in 1..40u64 {
        let mut store = counting(alloc, &[failing])?;
        let (out, err) = (sink(alloc, 99, &[])?, sink(alloc, 99, &[])?);
        let ended = call(&rt, alloc, "mp5 one p c", &mut store, out, err)?;
        let at = format!(in alloc; "read {failing}")?;
        if matches!(ended.status, Status::ReadFault) {
            assert_eq!(rt; reached, failing - 1);
            reached = failing;
            assert_ended(&rt, &ended, 5, "", &at);
        } else {
            assert_ended(&rt, &ended, 0, COUNTED, &at);
        }
    }
    assert!(rt; 1 < reached && reached < 39);
    Ok(())
}

// The 72 bytes take nine writes of eight bytes; each fails in turn.
#[test]
fn writes_that_fail(rt: HostRuntime) -> Result<(), Fail> {
    let alloc = rt.alloc();
    for failing in 1..13u64 {
        let mut store = counting(alloc, &[])?;
        let (out, err) = (sink(alloc, 8, &[failing])?, sink(alloc, 4, &[])?);
        let ended = call(&rt, alloc, "mp5 one p c", &mut store, out, err)?;
        let written = COUNTED.get(..8 * (failing as usize - 1)).unwrap_or(COUNTED);
        let code = if failing < 10 { 6 } else { 0 };
        let at = format!(in alloc; "write {failing}")?;
        assert_ended(&rt, &ended, code, written, &at);
    }
    // A fault of the errors' sink changes no status.
    for (line, fails, code, out, err) in [
        ("mp5", [1u64], 2, "", ""),
        ("mp5", [2], 2, "", "mp5:"),
        ("mp5 one q c", [1], 3, "", ""),
        ("mp5 one p q", [3], 4, "", "mp5: cap"),
        ("mp5 one p q", [5], 4, "", "mp5: capture 2 "),
        ("mp5 one p q", [6], 4, "", "mp5: capture 2 0"),
        ("mp5 one p q", [7], 4, "", "mp5: capture 2 0\n"),
        ("mp5 one p c", [1], 0, COUNTED, ""),
    ] {
        let mut store = counting(alloc, &[])?;
        let (taken, told) = (sink(alloc, 1, &[])?, sink(alloc, 4, &fails)?);
        let ended = call(&rt, alloc, line, &mut store, taken, told)?;
        assert_eq!(rt; ended.status.code(), code, "at {line}");
        assert_eq!(rt; text_of(&ended.out), out, "at {line}");
        assert_eq!(rt; text_of(&ended.err), err, "at {line}");
    }
    Ok(())
}

// Stores and sinks that move one byte at a time.
#[test]
fn one_byte_at_a_time(rt: HostRuntime) -> Result<(), Fail> {
    let alloc = rt.alloc();
    let capture = packets(alloc, &[10, 20, 30])?;
    for (line, printed) in [
        ("mp5 one p c", COUNTED),
        ("mp5 plan p c", PLANNED),
        ("mp5 serial p c", COUNTED),
        ("mp5 run p c", COUNTED),
    ] {
        let mut store = store_of(alloc, COUNT.as_bytes(), &capture, 1, &[])?;
        let (out, err) = (sink(alloc, 1, &[])?, sink(alloc, 1, &[])?);
        let ended = call(&rt, alloc, line, &mut store, out, err)?;
        assert_ended(&rt, &ended, 0, printed, line);
    }
    Ok(())
}

// How a call ends on a store of a program `gen:p` and an empty capture `c` that never fails.
fn sure_code<R: thread::Threads + Wait + Sync>(
    rt: &R,
    alloc: Global,
    line: &str,
) -> Result<u8, AllocError> {
    let program = file(alloc, "gen:p", COUNT.as_bytes())?;
    let files = vec![in alloc; program, file(alloc, "c", &FILE_HEADER)?]?;
    let mut store = SureStore::new(files);
    let (mut out, mut err) = (SureSink::new(), SureSink::new());
    let words = words_of(alloc, line)?;
    let status = switch_top(
        rt,
        alloc,
        &words,
        &mut store,
        &mut out,
        &mut err,
        &mut Threads::new(&OpenGate),
    );
    Ok(status.code())
}

// A program's name may begin with `gen:`, and a capture's may not.
#[test]
fn names_that_begin_with_gen(rt: HostRuntime) -> Result<(), Fail> {
    let alloc = rt.alloc();
    assert_eq!(rt; sure_code(&rt, alloc, "mp5 one gen:p c")?, 0);
    assert_eq!(rt; sure_code(&rt, alloc, "mp5 one p c")?, 3);
    assert_eq!(rt; sure_code(&rt, alloc, "mp5 one gen:p q")?, 4);
    assert_eq!(rt; sure_code(&rt, alloc, "mp5 one gen:p gen:p")?, 2);
    Ok(())
}

#[test]
fn codes(rt: HostRuntime) {
    for (status, code) in [
        (Status::Done, 0),
        (Status::Help, 1),
        (Status::Words, 2),
        (Status::Program(ProgramFault::NoMemory), 3),
        (Status::ReadFault, 5),
        (Status::WriteFault, 6),
        (Status::NoMemory, 7),
    ] {
        assert_eq!(rt; status.code(), code);
    }
}
