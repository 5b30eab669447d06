//! The top call: the words, the program, the capture, the run, and what is printed.
ghost use Rattle.std.specs.Prelude.{◌≡◌, ◌≤◌, List, [], length, map, string_bytes, IfOk, IfErr, IfSome, None, false};
ghost use Rattle.capture_io.specs.ClassicCapture.{Record, IsCapture};
ghost use Rattle.capture_io.specs.Header.{headers};
ghost use Rattle.domino_compile.specs.Accepted.{IsAccepted};
ghost use Rattle.domino_compile.specs.Compiled.{IsCompiled};
ghost use Rattle.load_maker.specs.Made as spec;
ghost use Rattle.command_line.specs.declared.request.TheConstants.{MAX_MADE};
ghost use Rattle.command_line.specs.CommandLine.{AsksForHelp, File, IsRefused, IsWithin, Request, origin_of, request_with};
ghost use Rattle.switch_runner.specs.Loads.{AreHeadersOf, ChangesAt, load_of};
ghost use Rattle.switch_runner.specs.Causes.{ComesWhere, IsReportText};
ghost use Rattle.switch_runner.specs.Laws.{AskForNone, Because, CaptureAlways, IsComplete, Laws, Networks, ProgramAlways, ReadsAsked, Reports, StopsAtProgram, Tells, request, texts};
ghost use Rattle.compiled_run.specs.SourceRun.{IsSourceAnswer};
ghost use Rattle.switch_runner.specs.Networks.{RanBy, RanIn, RanOn, runs_network};
ghost use Rattle.switch_runner.specs.Outside.{ChangesOnly, IsKept};
ghost use Rattle.report_text.specs.PlanLines.{plan_text};
ghost use Rattle.report_text.specs.Report.{report};
ghost use Rattle.switch_runner.specs.Top.{AreWide, NoSource, NoHeaders, Ends, RunEnds, Serves, TextEnds, words_of};

use crate::block::Block;
use crate::limits::{MAX_CAPTURE, MAX_TEXT};
use crate::line::write_line;
use crate::outside::{Failed, Sink, Store};
use crate::plan::write_plan;
use crate::report::print_report;
use crate::run::run_one;
use crate::status::Status;
use crate::transfer::read_whole;
use capture_io::{Capture, read_capture};
use command_line::{CaptureName, Mode, Request, asked};
use compiled_run::{run, run_serial};
use domino_compile::{Compiled, compile};
use load_maker::make_capture;
use mp5_words::{FieldNames, NoMemory};
use report_text::{Line, PlanText, Style};
use std::alloc::Global;
use std::sync::Wait;
use std::thread::Threads;
use switch_net::{Answer, Fabric};

/// Runs the program on the words of a command line, whose first word is the program's own name.
pub fn switch_top<R: Threads + Wait + Sync, S: Store, K: Sink, F: Fabric>(
    rt: &R,
    alloc: Global,
    words: &[String],
    store: &mut S,
    out: &mut K,
    err: &mut K,
    fabric: &mut F,
) -> Status
    // Help comes exactly where the words ask for it, and Words exactly where they are refused, unless memory
    // runs out. Where they aren't taken, the store and the output are as they were.
    ensures help { ComesWhere (AsksForHelp (texts words.now)) result Status.Help }
    ensures refused { ComesWhere (IsRefused (texts words.now)) result Status.Words }
    ensures untaken { request words.now ≡ None → (store.new ≡ store.old) × (out.new ≡ out.old) }

    // Each other answer has its cause, and the output gains all that is printed, a prefix
    // of it or nothing.
    ensures because { Because words.now (S.seen store.old) (S.seen store.new) result }
    ensures out { Reports words.now (S.seen store.old) (K.seen out.old) (K.seen out.new) result }

    // Where no read and no write fails, the told input decides the answer, unless memory runs out.
    ensures program { ProgramAlways words.now (S.seen store.old) (S.seen store.new) result }
    ensures capture { CaptureAlways words.now (S.seen store.old) (S.seen store.new) result }
    ensures complete { IsComplete words.now (S.seen store.old) (S.seen store.new) result }

    // The store tells the same, no name but the two is read, and the capture only behind a program.
    ensures kept { IsKept (S.seen store.old) (S.seen store.new) }
    ensures names { ReadsAsked words.now (S.seen store.old) (S.seen store.new) }
    ensures stops { StopsAtProgram words.now (S.seen store.old) (S.seen store.new) result }

    // A network is run in modes `serial` and `run` alone, for each answer that prints, and it is that of the
    // request.
    ensures fabric { AskForNone words.now → fabric.new ≡ fabric.old }
    ensures networks { Networks words.now (S.seen store.old)
        (F.seen fabric.old) (F.seen fabric.new) result }

    // Standard error gains the one line of the answer.
    ensures err { Tells result (K.seen err.old) (K.seen err.new) }
{
    let status = run_words(rt, alloc, words, store, out, fabric);
    tell(err, &status);
    status
}

/// Runs the program on the words, and tells nothing of the answer.
fn run_words<R: Threads + Wait + Sync, S: Store, K: Sink, F: Fabric>(
    rt: &R,
    alloc: Global,
    words: &[String],
    store: &mut S,
    out: &mut K,
    fabric: &mut F,
) -> Status
    ensures laws { Laws words.now (S.seen store.old) (S.seen store.new)
        (K.seen out.old) (K.seen out.new) (F.seen fabric.old) (F.seen fabric.new) result }
    ensures untaken { request words.now ≡ None → (store.new ≡ store.old) × (out.new ≡ out.old) }
    ensures fabric { AskForNone words.now → fabric.new ≡ fabric.old }
{
    match asked(alloc, words) {
        Ok(request) => serve(rt, alloc, &request, store, out, fabric),
        Err(fault) => Status::from(fault),
    }
}

/// Reads the program and the capture, or makes the capture, and then does what the mode says.
fn serve<R: Threads + Wait + Sync, S: Store, K: Sink, F: Fabric>(
    rt: &R,
    alloc: Global,
    request: &Request<'_>,
    store: &mut S,
    out: &mut K,
    fabric: &mut F,
) -> Status
    requires { IsWithin (origin_of request.now.capture) }
    ensures serves { Serves (words_of request.now)
        (S.seen store.old) (S.seen store.new) (K.seen out.old) (K.seen out.new)
        (F.seen fabric.old) (F.seen fabric.new) result }
    ensures fabric { runs_network request.now.mode ≡ false → fabric.new ≡ fabric.old }
{
    let compiled = match read_source(alloc, store, request.program) {
        Ok(compiled) => compiled,
        Err(status) => return status,
    };
    let fields = compiled.source.field_names();
    let headers = match headers_from(alloc, store, &request.capture, fields) {
        Ok(headers) => headers,
        Err(status) => return status,
    };
    run_and_print(rt, alloc, request, &compiled, headers, out, fabric)
}

/// Reads a program and compiles it.
fn read_source<S: Store>(alloc: Global, store: &mut S, name: &str) -> Result<Compiled, Status>
    ensures only { ChangesOnly name.now (S.seen store.old) (S.seen store.new) }
    ensures read { IfOk result
        (λ c. IfSome ((S.seen store.old).told name.now) (λ text. IsAccepted text c.program)) }
    ensures refused { IfErr result (NoSource name.now (S.seen store.old) (S.seen store.new)) }
{
    let text = read_whole(alloc, store, name, MAX_TEXT)?;
    Ok(compile(alloc, &text)?)
}

/// The headers that are asked for: those of a capture that is read, or of one that is made.
fn headers_from<S: Store>(
    alloc: Global,
    store: &mut S,
    capture: &CaptureName<'_>,
    fields: &FieldNames,
) -> Result<Capture, Status>
    requires { IsWithin (origin_of capture.now) }
    ensures only { ChangesAt (origin_of capture.now) (S.seen store.old) (S.seen store.new) }
    ensures load { IfOk result (λ c. IfSome (load_of (origin_of capture.now) (S.seen store.old))
        (λ load. AreHeadersOf load fields.now c)) }
    ensures wide { IfOk result (AreWide (length fields.now)) }
    ensures refused { IfErr result
        (NoHeaders (origin_of capture.now) (S.seen store.old) (S.seen store.new)) }
{
    match capture {
        CaptureName::File(name) => read_headers(alloc, store, name, fields),
        CaptureName::Made { count, seed } => made_headers(alloc, *count, *seed, fields),
    }
}

/// Makes a capture.
fn made_headers(
    alloc: Global,
    count: u32,
    seed: u32,
    fields: &FieldNames,
) -> Result<Capture, Status>
    requires { count ≤ MAX_MADE }
    ensures made { IfOk result (λ c. c ≡ spec.made_headers count seed fields.now) }
    ensures refused { IfErr result (λ s. s ≡ Status.NoMemory) }
{
    match make_capture(alloc, count, u64::from(seed), fields) {
        Ok(capture) => Ok(capture),
        Err(NoMemory) => Err(Status::NoMemory),
    }
}

/// Reads a capture.
fn read_headers<S: Store>(
    alloc: Global,
    store: &mut S,
    name: &str,
    fields: &FieldNames,
) -> Result<Capture, Status>
    ensures only { ChangesOnly name.now (S.seen store.old) (S.seen store.new) }
    ensures read { IfOk result (λ c. (records : List Record) × (c ≡ headers fields.now records)
        × IfSome ((S.seen store.old).told name.now) (λ bytes. IsCapture bytes records)) }
    ensures refused { IfErr result
        (NoHeaders (File name.now) (S.seen store.old) (S.seen store.new)) }
{
    let bytes = read_whole(alloc, store, name, MAX_CAPTURE)?;
    Ok(read_capture(alloc, &bytes, fields)?)
}

/// Prints of the program and the headers what the mode prints.
fn run_and_print<R: Threads + Wait + Sync, K: Sink, F: Fabric>(
    rt: &R,
    alloc: Global,
    request: &Request<'_>,
    compiled: &Compiled,
    headers: Capture,
    out: &mut K,
    fabric: &mut F,
) -> Status
    requires { AreWide (length compiled.now.program.packet.fields) headers }
    ensures ends { RunEnds (words_of request.now) compiled.now.program headers
        (K.seen out.old) (K.seen out.new) result }
    ensures ran { RanIn request.now.mode
        (RanOn request.now.mode (words_of request.now).numbers compiled.now.program headers)
        result (F.seen fabric.old) (F.seen fabric.new) }
    ensures fabric { runs_network request.now.mode ≡ false → fabric.new ≡ fabric.old }
{
    match request.mode {
        Mode::One => run_in_order(alloc, compiled, headers, request.brief, out),
        Mode::Plan => print_code(alloc, compiled, &headers, out),
        Mode::Serial => run_in_turns(rt, alloc, request, compiled, &headers, out, fabric),
        Mode::Run => run_on_threads(rt, alloc, request, compiled, &headers, out, fabric),
    }
}

/// Runs a network on the headers on one thread, and then writes the report of its answer.
fn run_in_turns<R: Threads + Wait + Sync, K: Sink, F: Fabric>(
    rt: &R,
    alloc: Global,
    request: &Request<'_>,
    compiled: &Compiled,
    headers: &Capture,
    out: &mut K,
    fabric: &mut F,
) -> Status
    requires { AreWide (length compiled.now.program.packet.fields) headers.now }
    ensures ends { TextEnds (IsReportText (words_of request.now) compiled.now.program headers.now)
        (K.seen out.old) (K.seen out.new) result }
    ensures ran { RanBy (RanOn Mode.Serial (words_of request.now).numbers
        compiled.now.program headers.now) result (F.seen fabric.old) (F.seen fabric.new) }
{
    let answer = run_serial(
        rt,
        alloc,
        fabric,
        compiled,
        headers,
        &request.settings,
        request.seed,
    );
    match answer {
        Ok(answer) => print_answer(alloc, request, compiled, headers, &answer, out),
        Err(NoMemory) => Status::NoMemory,
    }
}

/// Runs a network on the headers on threads, and then writes the report of its answer.
fn run_on_threads<R: Threads + Wait + Sync, K: Sink, F: Fabric>(
    rt: &R,
    alloc: Global,
    request: &Request<'_>,
    compiled: &Compiled,
    headers: &Capture,
    out: &mut K,
    fabric: &mut F,
) -> Status
    requires { AreWide (length compiled.now.program.packet.fields) headers.now }
    ensures ends { TextEnds (IsReportText (words_of request.now) compiled.now.program headers.now)
        (K.seen out.old) (K.seen out.new) result }
    ensures ran { RanBy (RanOn Mode.Run (words_of request.now).numbers
        compiled.now.program headers.now) result (F.seen fabric.old) (F.seen fabric.new) }
{
    let answer = run(rt, alloc, fabric, compiled, headers, &request.settings);
    match answer {
        Ok(answer) => print_answer(alloc, request, compiled, headers, &answer, out),
        Err(NoMemory) => Status::NoMemory,
    }
}

/// Writes the report of what a network answers.
fn print_answer<K: Sink>(
    alloc: Global,
    request: &Request<'_>,
    compiled: &Compiled,
    headers: &Capture,
    answer: &Answer,
    out: &mut K,
) -> Status
    requires wide { AreWide (length compiled.now.program.packet.fields) headers.now }
    requires answer { IsSourceAnswer compiled.now.program compiled.now.code headers.now
        request.now.settings answer.now }
    ensures ends { TextEnds (IsReportText (words_of request.now) compiled.now.program headers.now)
        (K.seen out.old) (K.seen out.new) result }
    ensures compiled { IsCompiled compiled.now.program compiled.now.code }
{
    let _ = headers;
    let style = Style {
        trace: request.trace,
        brief: request.brief,
    };
    print_report(alloc, &compiled.source, &compiled.code, answer, style, out)
}

/// Runs the transaction on each header in order, and then writes the report.
fn run_in_order<K: Sink>(
    alloc: Global,
    compiled: &Compiled,
    headers: Capture,
    brief: bool,
    out: &mut K,
) -> Status
    requires { AreWide (length compiled.now.program.packet.fields) headers }
    ensures { Ends (report compiled.now.program headers brief [])
        (K.seen out.old) (K.seen out.new) result }
{
    let style = Style {
        trace: false,
        brief,
    };
    match run_one(alloc, &compiled.source, headers) {
        Ok(answer) => print_report(alloc, &compiled.source, &compiled.code, &answer, style, out),
        Err(NoMemory) => Status::NoMemory,
    }
}

/// Writes the text of the program's code, with the places of each header.
fn print_code<K: Sink>(alloc: Global, compiled: &Compiled, headers: &Capture, out: &mut K) -> Status
    requires { AreWide (length compiled.now.program.packet.fields) headers.now }
    ensures ends { Ends (plan_text compiled.now.program compiled.now.code headers.now)
        (K.seen out.old) (K.seen out.new) result }
    ensures compiled { IsCompiled compiled.now.program compiled.now.code }
{
    let Ok(mut text) = PlanText::new(alloc, &compiled.source, &compiled.code, headers) else {
        return Status::NoMemory;
    };
    let Ok(mut line) = Line::for_program(alloc, &compiled.source) else {
        return Status::NoMemory;
    };
    let Ok(block) = Block::new(alloc) else {
        return Status::NoMemory;
    };
    match write_plan(block, out, &mut text, &mut line) {
        Ok(()) => Status::Done,
        Err(Failed) => Status::WriteFault,
    }
}

/// Writes what tells of a status.
fn tell<K: Sink>(err: &mut K, status: &Status)
    ensures { Tells status.now (K.seen err.old) (K.seen err.new) }
{
    let _ = write_line(err, status);
}
