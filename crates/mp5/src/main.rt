//! The program `mp5`: a packet transaction run over a capture.
#![tactic(auto)]

use std::env;
use std::io::ErrorKind;
use std::process::ExitCode;
use switch_runner::{FileStore, OpenGate, OutSink, Status, Threads, switch_top};

/// The words of the command line: no words where one of them isn't UTF-8, and nothing where memory ran
/// out.
fn words(rt: &HostRuntime) -> Option<Vec<String>> {
    match env::args(rt) {
        Ok(args) => args.collect(rt.alloc()).ok(),
        Err(error) if error.kind() == ErrorKind::OutOfMemory => None,
        Err(_) => Some(Vec::new(rt.alloc())),
    }
}

fn main(rt: HostRuntime) -> ExitCode {
    let alloc = rt.alloc();
    let Some(words) = words(&rt) else {
        let _ = rt.eprintln("mp5: no memory");
        return ExitCode::from(Status::NoMemory.code());
    };
    let mut out = OutSink::output(rt.stdout());
    let mut err = OutSink::errors(rt.stderr());
    let mut store = FileStore::new(rt);
    let mut fabric = Threads::new(&OpenGate);
    let status = switch_top(
        &rt,
        alloc,
        &words,
        &mut store,
        &mut out,
        &mut err,
        &mut fabric,
    );
    ExitCode::from(status.code())
}
