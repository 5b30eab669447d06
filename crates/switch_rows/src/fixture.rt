//! What the rows share: captures, programs, and calls of the switch over stores and sinks in memory.
ghost use Rattle.std.specs.Prelude.{◌<◌};

use mp5_words::Name;
use std::alloc::{AllocError, Global};
use std::process::Abort;
use std::sync::Wait;
use std::{str, thread};
use switch_runner::{
    MemorySink, MemoryStore, NamedBytes, OpenGate, Status, Store, Threads, switch_top,
};

/// Counts the packets.
pub(crate) const COUNT: &str =
    "struct Packet { int sport; int n; }; int c; void count(struct Packet p) { c = c + 1; p.n = c; }";

/// What `COUNT` gives on packets from the ports 10, 20 and 30: 72 bytes.
pub(crate) const COUNTED: &str =
    "pkt 0 sport=10 n=1\npkt 1 sport=20 n=2\npkt 2 sport=30 n=3\nreg c=3\ndone 3\n";

/// The text of the code of `COUNT`, with the places of three packets.
pub(crate) const PLANNED: &str = "\
struct Packet { int sport ; int n ; } ;
int c ;
void count ( struct Packet p ) { c = c + 1 ; p . n = c ; }
code 6 3 1
group 0 depth 1 units 1 : c
place 0 0 0
place 1 0 0
place 2 0 0
done 3
";

/// The file header of a capture of Ethernet frames.
pub(crate) const FILE_HEADER: [u8; 24] = [
    0xd4, 0xc3, 0xb2, 0xa1, 2, 0, 4, 0, 0, 0, 0, 0, 0, 0, 0, 0, 0, 0, 4, 0, 1, 0, 0, 0,
];

/// A UDP frame of 42 bytes from port 10 to port 20.
pub(crate) const FRAME: [u8; 42] = [
    2, 0, 0, 0, 0, 2, 2, 0, 0, 0, 0, 1, 8, 0, // Ethernet
    0x45, 0, 0, 28, 0, 0, 0, 0, 64, 17, 0, 0, 10, 0, 0, 1, 10, 0, 0, 2, // IPv4
    0, 10, 0, 20, 0, 8, 0, 0, // UDP
];

/// Adds a record of this frame, at second 1, to a capture.
pub(crate) fn push_record(capture: &mut Vec<u8>, frame: &[u8]) -> Result<(), AllocError> {
    let length = (frame.len() as u64).to_le_bytes();
    capture.extend_from_slice(&[1, 0, 0, 0, 0, 0, 0, 0])?;
    capture.extend_from_slice(&length[..4])?;
    capture.extend_from_slice(&length[..4])?;
    capture.extend_from_slice(frame)
}

/// A capture of UDP frames from these ports.
pub(crate) fn packets(alloc: Global, ports: &[u16]) -> Result<Vec<u8>, AllocError> {
    let mut capture = Vec::from_slice(alloc, &FILE_HEADER)?;
    for port in ports {
        let mut frame = FRAME;
        let [high, low] = port.to_be_bytes();
        frame[34] = high;
        frame[35] = low;
        push_record(&mut capture, &frame)?;
    }
    Ok(capture)
}

/// A file of this name.
pub(crate) fn file(alloc: Global, name: &str, bytes: &[u8]) -> Result<NamedBytes, AllocError> {
    let name = Name::new(Vec::from_slice(alloc, name.as_bytes())?);
    Ok(NamedBytes::new(name, Vec::from_slice(alloc, bytes)?))
}

/// A store of a program `p` and a capture `c`, read in pieces of at most `most` bytes.
pub(crate) fn store_of(
    alloc: Global,
    program: &[u8],
    capture: &[u8],
    most: u32,
    fails: &[u64],
) -> Result<MemoryStore, AllocError>
    requires { 0 < most }
{
    let files = vec![in alloc; file(alloc, "p", program)?, file(alloc, "c", capture)?]?;
    Ok(MemoryStore::new(files, most, Vec::from_slice(alloc, fails)?))
}

/// An empty sink that takes at most `most` bytes at a time.
pub(crate) fn sink(alloc: Global, most: u32, fails: &[u64]) -> Result<MemorySink, AllocError>
    requires { 0 < most }
{
    let fails = Vec::from_slice(alloc, fails)?;
    Ok(MemorySink::new(Vec::new(alloc), most, fails))
}

/// The words of a command line, which stand between single spaces; none for an empty line.
pub(crate) fn words_of(alloc: Global, line: &str) -> Result<Vec<String>, AllocError> {
    let mut words = Vec::new(alloc);
    if !line.is_empty() {
        for word in line.split(' ') {
            words.push(String::from_str(alloc, word)?)?;
        }
    }
    Ok(words)
}

/// A call that has ended.
#[derive(Drop)]
pub(crate) struct Ended {
    pub(crate) status: Status,
    pub(crate) out: MemorySink,
    pub(crate) err: MemorySink,
}

/// Calls the switch with these words.
pub(crate) fn call<R: thread::Threads + Wait + Sync, S: Store>(
    rt: &R,
    alloc: Global,
    line: &str,
    store: &mut S,
    out: MemorySink,
    err: MemorySink,
) -> Result<Ended, AllocError> {
    let words = words_of(alloc, line)?;
    let mut out = out;
    let mut err = err;
    let status = switch_top(
        rt,
        alloc,
        &words,
        store,
        &mut out,
        &mut err,
        &mut Threads::new(&OpenGate),
    );
    Ok(Ended { status, out, err })
}

/// Runs a program on a capture, with no faults.
pub(crate) fn run<R: thread::Threads + Wait + Sync>(
    rt: &R,
    alloc: Global,
    program: &[u8],
    capture: &[u8],
) -> Result<Ended, AllocError> {
    let mut store = store_of(alloc, program, capture, 65536, &[])?;
    let out = sink(alloc, 65536, &[])?;
    let err = sink(alloc, 65536, &[])?;
    call(rt, alloc, "mp5 one p c", &mut store, out, err)
}

/// What a sink has taken.
pub(crate) fn text_of(sink: &MemorySink) -> &str {
    str::from_utf8(sink.bytes()).unwrap_or("not UTF-8")
}

/// The line for the status of this code, which isn't that of a refusal that keeps values.
fn line_of(code: u8) -> &'static str {
    match code {
        0 => "",
        2 => "mp5: words\n",
        5 => "mp5: read fault\n",
        6 => "mp5: write fault\n",
        _ => "mp5: no memory\n",
    }
}

/// The call has ended with this code, this output and the code's line.
pub(crate) fn assert_ended(rt: &impl Abort, ended: &Ended, code: u8, out: &str, at: &str) {
    assert_eq!(rt; ended.status.code(), code, "at {at}");
    assert_eq!(rt; text_of(&ended.out), out, "at {at}");
    assert_eq!(rt; text_of(&ended.err), line_of(code), "at {at}");
}

/// The call has ended with a refused program or a refused capture, by its code: this number, and the values
/// that are kept.
pub(crate) fn assert_refused(
    rt: &impl Abort,
    alloc: Global,
    ended: &Ended,
    code: u8,
    refusal: &str,
    at: &str,
) -> Result<(), AllocError> {
    let refused = if code == 3 { "program" } else { "capture" };
    let line = format!(in alloc; "mp5: {refused} {refusal}\n")?;
    assert_eq!(rt; ended.status.code(), code, "at {at}");
    assert_eq!(rt; text_of(&ended.out), "", "at {at}");
    assert_eq!(rt; text_of(&ended.err), line.as_str(), "at {at}");
    Ok(())
}
