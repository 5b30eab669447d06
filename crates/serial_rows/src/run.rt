//! The run of a row.
ghost use Rattle.std.specs.Prelude.{◌≡◌, ℕ, length, IsTrue, All};

use crate::frames::capture_of;
use crate::row::Row;
use crate::trouble::Trouble;
use capture_io::{Capture, read_capture};
use code_forms::StagedCode;
use domino_compile::{Compiled, compile};
use mp5_words::{FieldNames, Settings};
use std::alloc::Global;
use std::fmt::Write;
use std::sync::Wait;
use std::thread::Threads;
use switch_net::{Answer, Ended, Network, OpenGate};

/// How a network is run.
#[derive(Clone, Copy, Debug)]
pub enum Way {
    /// On one thread, in an order that a seed names.
    Serial(u32),
    /// With a thread for each pipe.
    Parallel,
}

/// What a row gives: the fields of each packet, each with a comma behind it, and after a bar the cells.
pub fn answer_to<R: Threads + Wait + Sync>(
    rt: &R,
    alloc: Global,
    row: &Row<'_>,
    way: Way,
) -> Result<String, Trouble> {
    let settings = settings_of(row.numbers[0], row.numbers[1], row.numbers[2])?;
    let compiled = compiled_of(alloc, row.text)?;
    answer_of(rt, alloc, &compiled, row, &settings, way)
}

/// The settings of a row.
pub fn settings_of(pipelines: u32, window: u32, round: u32) -> Result<Settings, Trouble> {
    match Settings::new(pipelines, window, round) {
        Some(settings) => Ok(settings),
        None => Err(Trouble::Row),
    }
}

/// The code of a row's program.
pub fn compiled_of(alloc: Global, text: &str) -> Result<Compiled, Trouble> {
    match compile(alloc, text.as_bytes()) {
        Ok(compiled) => Ok(compiled),
        Err(_) => Err(Trouble::Row),
    }
}

// What the code gives on a row's packets.
fn answer_of<R: Threads + Wait + Sync>(
    rt: &R,
    alloc: Global,
    compiled: &Compiled,
    row: &Row<'_>,
    settings: &Settings,
    way: Way,
) -> Result<String, Trouble> {
    let capture = packets_of(alloc, row.packets, compiled.source.field_names())?;
    run(rt, alloc, &compiled.code, &capture, settings, way)
}

/// A row's packets.
pub fn packets_of(alloc: Global, packets: &str, names: &FieldNames) -> Result<Capture, Trouble> {
    let bytes = capture_of(alloc, packets)?;
    headers_of(alloc, &bytes, names)
}

// The headers of a capture.
fn headers_of(alloc: Global, bytes: &[u8], names: &FieldNames) -> Result<Capture, Trouble> {
    match read_capture(alloc, bytes, names) {
        Ok(capture) => Ok(capture),
        Err(_) => Err(Trouble::Row),
    }
}

// Runs the code on the capture.
fn run<R: Threads + Wait + Sync>(
    rt: &R,
    alloc: Global,
    code: &StagedCode,
    capture: &Capture,
    settings: &Settings,
    way: Way,
) -> Result<String, Trouble> {
    if is_wide(code.fields(), capture) {
        run_network(rt, alloc, code, capture, settings, way)
    } else {
        Err(Trouble::Row)
    }
}

// Runs the code on headers that have a word for each field.
fn run_network<R: Threads + Wait + Sync>(
    rt: &R,
    alloc: Global,
    code: &StagedCode,
    capture: &Capture,
    settings: &Settings,
    way: Way,
) -> Result<String, Trouble>
    requires { All (λ header. length header ≡ code.now.fields) capture.now }
{
    let network = Network::build(rt, alloc, code, capture, settings)?;
    told(rt, alloc, network, way)
}

// Runs a network, and tells its answer.
fn told<R: Threads + Wait + Sync>(
    rt: &R,
    alloc: Global,
    network: Network<'_>,
    way: Way,
) -> Result<String, Trouble> {
    let ended = ended(rt, network, way);
    text_of(alloc, &ended.answer)
}

// Runs a network.
fn ended<'a, R: Threads + Wait + Sync>(rt: &R, network: Network<'a>, way: Way) -> Ended<'a> {
    match way {
        Way::Serial(seed) => network.run_serial(rt, u64::from(seed)),
        Way::Parallel => network.run(rt, &OpenGate),
    }
}

/// Whether each header has so many words.
pub fn is_wide(fields: u32, capture: &Capture) -> bool
    ensures { IsTrue result → All (λ header. length header ≡ fields) capture.now }
{
    for t in 0..capture.count() {
        if capture.header(t).len() != fields as usize {
            return false;
        }
    }
    true
}

// The fields of each packet, each with a comma behind it, and after a bar the cells.
fn text_of(alloc: Global, answer: &Answer) -> Result<String, Trouble> {
    let mut text = String::new(alloc);
    put_words(&mut text, answer.packets.as_slice())?;
    text.push('|')?;
    put_words(&mut text, answer.cells.as_slice())?;
    Ok(text)
}

// Appends words, each with a comma behind it.
fn put_words(text: &mut String, words: &[i32]) -> Result<(), Trouble> {
    for word in words {
        let Ok(()) = write!(text, "{word},") else {
            return Err(Trouble::NoMemory);
        };
    }
    Ok(())
}
